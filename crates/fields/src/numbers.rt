// Six numbers, and what they are found to be.
use isa::Instruction;

// The format, the opcode in it, the vector flags, and the fields in the order of the word; 0 where there is none.
#[derive(Clone, Copy, Debug, PartialEq, Eq)]
pub struct Numbers {
    pub format: u32,
    pub opcode: u32,
    pub flags: u32,
    pub first: u32,
    pub second: u32,
    pub third: u32,
}

// The word whose numbers they are, and the instruction that it is read as.
#[derive(Clone, Copy, Debug, PartialEq, Eq)]
pub struct Found {
    pub word: u32,
    pub instruction: Instruction,
}
