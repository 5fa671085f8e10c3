// Words taken apart into numbers, and put together from them.
ghost use Rattle.std.specs.Prelude.{◌+◌, ◌*◌, ◌<◌, ◌≤◌, ◌≡◌};
ghost use Rattle.fields.specs.Find.{found, word_for};
ghost use Rattle.fields.specs.Numbers.{numbers, immediate_of, numbers_of, word_of};

use crate::numbers::{Found, Numbers};
use isa::MoveiOp;
use word_layout::{PREFIX_C, PREFIX_I, PREFIX_J, PREFIX_M, PREFIX_MOVEI, PREFIX_R};

fn numbers_as(format: u32, opcode: u32, flags: u32, first: u32, second: u32, third: u32) -> Numbers
    ensures { result ≡ numbers format opcode flags first second third }
{
    Numbers {
        format,
        opcode,
        flags,
        first,
        second,
        third,
    }
}

// The number of a MOVEI word, by its opcode: 2 is movei's.
fn immediate_of(w: u32) -> u32
    ensures { result ≡ immediate_of w }
{
    if w / 0x1000000 % 8 == 2 {
        return isa::movei_number(MoveiOp::Whole, w);
    }
    isa::movei_number(MoveiOp::Low, w)
}

// The numbers of a word, by the format that its upper bits say.
pub fn unpack(w: u32) -> Numbers
    ensures { result ≡ numbers_of w }
{
    let opcode = w / 0x1000000;
    let first = w / 0x40000 % 64;
    let second = w / 0x1000 % 64;
    let short = word_layout::short_signed(w);
    let long = word_layout::long_signed(w);
    if w / 0x40000000 == PREFIX_R {
        return numbers_as(0, opcode % 64, w / 2 % 8, first, second, w / 0x40 % 64);
    }
    if w / 0x20000000 == PREFIX_I {
        return numbers_as(1, opcode % 32, w / 2 % 4, first, second, short);
    }
    if w / 0x8000000 == PREFIX_MOVEI {
        return numbers_as(2, opcode % 8, w / 2 % 2, first, immediate_of(w), 0);
    }
    if w / 0x8000000 == PREFIX_J {
        return numbers_as(3, opcode % 8, 0, first, long, 0);
    }
    if w / 0x8000000 == PREFIX_C {
        return numbers_as(4, opcode % 8, 0, first, second, 0);
    }
    if w / 0x40000000 == PREFIX_M {
        return numbers_as(5, opcode % 64, 0, first, second, short);
    }
    numbers_as(6, 0, 0, 0, 0, 0)
}

// A word from its format's bits, its opcode, its first field and the rest. isa's own packing asks for room, which an open call may not;
// here each number is reduced first.
fn place(format: u32, opcode: u32, first: u32, rest: u32) -> u32
    requires { (format + opcode * 0x1000000 + 0x1000000 ≤ 0x100000000) × (first < 64) × (rest < 0x40000) }
    ensures { result ≡ format + opcode * 0x1000000 + first * 0x40000 + rest }
{
    format + opcode * 0x1000000 + first * 0x40000 + rest
}

// The word with these numbers in its fields, each modulo what its field has room for; 0, which is undefined, where no format has the number.
#[tactic(auto, unfolding(crate::specs::Numbers::word_of))]
fn pack(n: Numbers) -> u32
    ensures { result ≡ word_of n }
{
    let Numbers {
        opcode,
        flags,
        second,
        third,
        ..
    } = n;
    let first = n.first % 64;
    let register = second % 64 * 0x1000;
    let short = third % 512 * 8;
    match n.format {
        0 => place(
            PREFIX_R * 0x40000000,
            opcode % 64,
            first,
            register + third % 64 * 0x40 + flags % 8 * 2,
        ),
        1 => place(
            PREFIX_I * 0x20000000,
            opcode % 32,
            first,
            register + short + flags % 4 * 2,
        ),
        2 => place(
            PREFIX_MOVEI * 0x8000000,
            opcode % 8,
            first,
            second % 65536 * 4 + flags % 2 * 2,
        ),
        3 => place(PREFIX_J * 0x8000000, opcode % 8, first, second % 0x40000),
        4 => place(PREFIX_C * 0x8000000, opcode % 8, first, register),
        5 => place(PREFIX_M * 0x40000000, opcode % 64, first, register + short),
        _ => 0,
    }
}

// The word whose numbers these are, where it is read as an instruction.
pub fn find(n: Numbers) -> Option<Found>
    ensures { found result ≡ word_for n }
{
    let word = pack(n);
    let instruction = isa::read_word(word).ok()?;
    (unpack(word) == n).then_some(Found { word, instruction })
}
