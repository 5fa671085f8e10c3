// The names of instructions.
ghost use Rattle.std.specs.Prelude.{◌≡◌, ◌<◌};
ghost use Rattle.names.specs.Name.{spelled, extended, name_of};
ghost use Rattle.names.specs.Rows.{rows, named};

use isa::Instruction;

// A name: its bytes from the front, then zeros. No text type: `korvammel_name` hands on the zeros behind the name, and docs/DECISIONS.md
// promises 16 bytes and a count.
#[derive(Clone, Copy, Debug, PartialEq, Eq)]
pub struct Name {
    pub bytes: [u8; 16],
    pub len: usize,
}

// A row of the table: the number of the format, the opcode, and the name's length and bytes. By places: sixty-one rows with four names
// each are no plainer.
#[derive(Clone, Copy, Debug, PartialEq, Eq)]
pub struct NameRow(pub u8, pub u8, pub usize, pub [u8; 16]);

// How many rows there are.
pub const COUNT: usize = 61;

const ROWS: [NameRow; COUNT] = [
    // R, and I with a letter more
    NameRow(0, 1, 2, *b"or\0\0\0\0\0\0\0\0\0\0\0\0\0\0"),
    NameRow(0, 2, 3, *b"and\0\0\0\0\0\0\0\0\0\0\0\0\0"),
    NameRow(0, 3, 3, *b"xor\0\0\0\0\0\0\0\0\0\0\0\0\0"),
    NameRow(0, 4, 3, *b"add\0\0\0\0\0\0\0\0\0\0\0\0\0"),
    NameRow(0, 5, 3, *b"sub\0\0\0\0\0\0\0\0\0\0\0\0\0"),
    NameRow(0, 6, 5, *b"mullo\0\0\0\0\0\0\0\0\0\0\0"),
    NameRow(0, 7, 5, *b"mulhi\0\0\0\0\0\0\0\0\0\0\0"),
    NameRow(0, 8, 5, *b"mulhu\0\0\0\0\0\0\0\0\0\0\0"),
    NameRow(0, 9, 4, *b"ashr\0\0\0\0\0\0\0\0\0\0\0\0"),
    NameRow(0, 10, 3, *b"shr\0\0\0\0\0\0\0\0\0\0\0\0\0"),
    NameRow(0, 11, 3, *b"shl\0\0\0\0\0\0\0\0\0\0\0\0\0"),
    NameRow(0, 12, 3, *b"clz\0\0\0\0\0\0\0\0\0\0\0\0\0"),
    NameRow(0, 13, 3, *b"ctz\0\0\0\0\0\0\0\0\0\0\0\0\0"),
    NameRow(0, 14, 5, *b"cmpeq\0\0\0\0\0\0\0\0\0\0\0"),
    NameRow(0, 15, 5, *b"cmpne\0\0\0\0\0\0\0\0\0\0\0"),
    NameRow(0, 16, 5, *b"cmpgt\0\0\0\0\0\0\0\0\0\0\0"),
    NameRow(0, 17, 5, *b"cmpge\0\0\0\0\0\0\0\0\0\0\0"),
    NameRow(0, 18, 5, *b"cmplt\0\0\0\0\0\0\0\0\0\0\0"),
    NameRow(0, 19, 5, *b"cmple\0\0\0\0\0\0\0\0\0\0\0"),
    NameRow(0, 20, 6, *b"cmpugt\0\0\0\0\0\0\0\0\0\0"),
    NameRow(0, 21, 6, *b"cmpuge\0\0\0\0\0\0\0\0\0\0"),
    NameRow(0, 22, 6, *b"cmpult\0\0\0\0\0\0\0\0\0\0"),
    NameRow(0, 23, 6, *b"cmpule\0\0\0\0\0\0\0\0\0\0"),
    NameRow(0, 24, 7, *b"shuffle\0\0\0\0\0\0\0\0\0"),
    NameRow(0, 25, 7, *b"getlane\0\0\0\0\0\0\0\0\0"),
    NameRow(0, 32, 4, *b"move\0\0\0\0\0\0\0\0\0\0\0\0"),
    NameRow(0, 33, 4, *b"fadd\0\0\0\0\0\0\0\0\0\0\0\0"),
    NameRow(0, 34, 4, *b"fsub\0\0\0\0\0\0\0\0\0\0\0\0"),
    NameRow(0, 35, 4, *b"fmul\0\0\0\0\0\0\0\0\0\0\0\0"),
    NameRow(0, 36, 4, *b"fdiv\0\0\0\0\0\0\0\0\0\0\0\0"),
    NameRow(0, 37, 6, *b"cmpfeq\0\0\0\0\0\0\0\0\0\0"),
    NameRow(0, 38, 6, *b"cmpfne\0\0\0\0\0\0\0\0\0\0"),
    NameRow(0, 39, 6, *b"cmpfgt\0\0\0\0\0\0\0\0\0\0"),
    NameRow(0, 40, 6, *b"cmpfge\0\0\0\0\0\0\0\0\0\0"),
    NameRow(0, 41, 6, *b"cmpflt\0\0\0\0\0\0\0\0\0\0"),
    NameRow(0, 42, 6, *b"cmpfle\0\0\0\0\0\0\0\0\0\0"),
    NameRow(0, 43, 5, *b"sext8\0\0\0\0\0\0\0\0\0\0\0"),
    NameRow(0, 44, 6, *b"sext16\0\0\0\0\0\0\0\0\0\0"),
    NameRow(0, 48, 8, *b"i32tof32\0\0\0\0\0\0\0\0"),
    NameRow(0, 49, 8, *b"f32toi32\0\0\0\0\0\0\0\0"),
    // MOVEI
    NameRow(2, 0, 6, *b"moveil\0\0\0\0\0\0\0\0\0\0"),
    NameRow(2, 1, 6, *b"moveih\0\0\0\0\0\0\0\0\0\0"),
    NameRow(2, 2, 5, *b"movei\0\0\0\0\0\0\0\0\0\0\0"),
    // J
    NameRow(3, 0, 3, *b"jmp\0\0\0\0\0\0\0\0\0\0\0\0\0"),
    NameRow(3, 1, 5, *b"jmpsr\0\0\0\0\0\0\0\0\0\0\0"),
    NameRow(3, 2, 4, *b"jret\0\0\0\0\0\0\0\0\0\0\0\0"),
    NameRow(3, 5, 4, *b"beqz\0\0\0\0\0\0\0\0\0\0\0\0"),
    NameRow(3, 6, 4, *b"bnez\0\0\0\0\0\0\0\0\0\0\0\0"),
    // C
    NameRow(4, 0, 7, *b"barrier\0\0\0\0\0\0\0\0\0"),
    NameRow(4, 1, 6, *b"readcr\0\0\0\0\0\0\0\0\0\0"),
    NameRow(4, 2, 3, *b"end\0\0\0\0\0\0\0\0\0\0\0\0\0"),
    // M
    NameRow(5, 0, 5, *b"load8\0\0\0\0\0\0\0\0\0\0\0"),
    NameRow(5, 1, 6, *b"load16\0\0\0\0\0\0\0\0\0\0"),
    NameRow(5, 2, 6, *b"load32\0\0\0\0\0\0\0\0\0\0"),
    NameRow(5, 4, 6, *b"load8u\0\0\0\0\0\0\0\0\0\0"),
    NameRow(5, 5, 7, *b"load16u\0\0\0\0\0\0\0\0\0"),
    NameRow(5, 8, 5, *b"loadv\0\0\0\0\0\0\0\0\0\0\0"),
    NameRow(5, 32, 6, *b"store8\0\0\0\0\0\0\0\0\0\0"),
    NameRow(5, 33, 7, *b"store16\0\0\0\0\0\0\0\0\0"),
    NameRow(5, 34, 7, *b"store32\0\0\0\0\0\0\0\0\0"),
    NameRow(5, 40, 6, *b"storev\0\0\0\0\0\0\0\0\0\0"),
];

// The rows, whose names have room in their bytes.
pub fn table() -> [NameRow; COUNT]
    ensures { result ≡ rows }
{
    ROWS
}

// The name in the row of a format and an opcode; none where there is no such row.
fn find(format: u8, opcode: u8) -> Name
    ensures { result ≡ named rows format opcode }
{
    for NameRow(f, o, len, bytes) in table() {
        if (format == f) & (opcode == o) {
            return Name { bytes, len };
        }
    }
    Name {
        bytes: [0; 16],
        len: 0,
    }
}

// The name with a letter more.
fn extend(name: Name, letter: u8) -> Name
    requires { name.len < 16 }
    ensures { result ≡ extended name letter }
{
    let Name { mut bytes, len } = name;
    bytes[len] = letter;
    Name {
        bytes,
        len: len + 1,
    }
}

// The name of an instruction, whether or not it has a word.
#[tactic(auto, using(crate::proofs::Names::named_rows))]
pub fn name_of(i: Instruction) -> Name
    ensures { result ≡ spelled (name_of i) }
{
    let opcode = isa::opcode_of(i);
    match i {
        Instruction::R { .. } => find(0, opcode),
        Instruction::I { .. } => extend(find(0, opcode), b'i'),
        Instruction::Movei { .. } => find(2, opcode),
        Instruction::J { .. } => find(3, opcode),
        Instruction::C { .. } => find(4, opcode),
        Instruction::M { .. } => find(5, opcode),
    }
}
