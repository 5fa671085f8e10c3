// What a call is refused for: the rows of document 01's table, and the tests that find one.
ghost use Rattle.std.specs.Prelude.{ℕ, ◌≤◌, ◌≡◌};
ghost use Rattle.std.proofs.Math.Option.{some};
ghost use Rattle.answer.specs.Refusal.{memory_bytes, bad_program, bad_registers, bad_memory, bad_mask, bad_length, row_of};
ghost use Rattle.answer.specs.Refusal.{number_of, numbered, refused_or, lengths_number, sizes_number};

// A row of the table "Numbers given back". The table's number of each is `number`.
#[derive(Clone, Copy, Debug, PartialEq, Eq)]
pub enum Refusal {
    Program,
    Registers,
    Memory,
    Record,
    Mask,
    NoWord,
    Undefined,
    NotFitted,
    Length,
    Image,
    CountsLost,
    Source,
    Label,
    TooLarge,
    HexRecord,
    HexOrder,
    HexEnd,
    ShortBuffer,
    Minute,
    SmallMemory,
}

impl Refusal {
    // Its number. A match and no numbers at the variants, so that a wrong program can give two rows one number.
    pub fn number(self) -> u8
        ensures { result ≡ row_of self }
    {
        match self {
            Refusal::Program => 1,
            Refusal::Registers => 2,
            Refusal::Memory => 3,
            Refusal::Record => 4,
            Refusal::Mask => 5,
            Refusal::NoWord => 6,
            Refusal::Undefined => 7,
            Refusal::NotFitted => 8,
            Refusal::Length => 9,
            Refusal::Image => 10,
            Refusal::CountsLost => 11,
            Refusal::Source => 12,
            Refusal::Label => 13,
            Refusal::TooLarge => 14,
            Refusal::HexRecord => 15,
            Refusal::HexOrder => 16,
            Refusal::HexEnd => 17,
            Refusal::ShortBuffer => 18,
            Refusal::Minute => 19,
            Refusal::SmallMemory => 20,
        }
    }
}

// A refusal, and the line of a text that it names; line 0 where it names none.
#[derive(Clone, Copy, Debug, PartialEq, Eq)]
pub struct RefusedLine {
    pub refusal: Refusal,
    pub line: usize,
}

// The most words of a program, and the words of a register file.
pub const PROGRAM_WORDS: usize = 16384;

pub const REGISTER_WORDS: usize = 8704;

// The bytes of a block of memory, and the most of a memory.
pub const BLOCK_BYTES: usize = 64;

pub const MEMORY_BYTES: usize = 65536;

// Whether a program's length is not allowed.
pub fn bad_program(words: usize) -> bool
    ensures { result ≡ bad_program words }
{
    (words == 0) | (PROGRAM_WORDS < words)
}

// Whether a register file's length is not allowed.
pub fn bad_registers(words: usize) -> bool
    ensures { result ≡ bad_registers words }
{
    words != REGISTER_WORDS
}

// Whether a memory's length is not allowed.
pub fn bad_memory(bytes: usize) -> bool
    ensures { result ≡ bad_memory bytes }
{
    (bytes < BLOCK_BYTES) | (MEMORY_BYTES < bytes) | (bytes % BLOCK_BYTES != 0)
}

// Whether a start mask is not allowed.
pub fn bad_mask(mask: u32) -> bool
    ensures { result ≡ bad_mask mask }
{
    (mask == 0) | (255 < mask)
}

// The first of two verdicts that refuses, whatever they refuse with: by each way to number it, its number is the first that there is.
pub fn first_refusal<E: Copy + Drop>(first: Result<(), E>, then: Result<(), E>) -> Result<(), E>
    ensures { (number : E → ℕ) → numbered number result ≡ refused_or (numbered number first) some (numbered number then) }
{
    first.and(then)
}

// Refuses a run's lengths, if one is not allowed: the words of a program and of a register file, and the bytes of a memory.
#[tactic(auto, unfolding(crate::specs::Refusal::lengths_number, crate::specs::Refusal::first_that_applies))]
pub fn lengths_verdict(words: usize, registers: usize, bytes: usize) -> Result<(), Refusal>
    ensures { number_of result ≡ lengths_number words registers bytes }
{
    if bad_program(words) {
        return Err(Refusal::Program);
    }
    if bad_registers(registers) {
        return Err(Refusal::Registers);
    }
    if bad_memory(bytes) {
        return Err(Refusal::Memory);
    }
    Ok(())
}

// The fixed part of an image's length, that of the old form, and the bytes of the record of a block of memory.
pub const FIXED_PART: u32 = 36980;

pub const OLD_FIXED_PART: u32 = 36948;

pub const BLOCK_RECORD: usize = 68;

// Whether an image of so many bytes, with such a fixed part, is not that of a memory of so many.
fn bad_length(fixed: u32, bytes: usize, size: usize) -> bool
    requires { bytes ≤ memory_bytes }
    ensures { result ≡ bad_length fixed bytes size }
{
    size != fixed as usize + BLOCK_RECORD * (bytes / BLOCK_BYTES)
}

// Refuses an image's call, if a length is not allowed: the words of a register file, the bytes of a memory, and those of an image, of
// which the fixed part is given.
#[tactic(auto, using(crate::proofs::Lengths::memory_most), unfolding(crate::specs::Refusal::sizes_number, crate::specs::Refusal::first_that_applies))]
pub fn sizes_verdict(fixed: u32, registers: usize, bytes: usize, size: usize) -> Result<(), Refusal>
    ensures { number_of result ≡ sizes_number fixed registers bytes size }
{
    if bad_registers(registers) {
        return Err(Refusal::Registers);
    }
    if bad_memory(bytes) {
        return Err(Refusal::Memory);
    }
    if bad_length(fixed, bytes, size) {
        return Err(Refusal::Length);
    }
    Ok(())
}
