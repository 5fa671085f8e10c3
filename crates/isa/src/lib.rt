// Instruction words of the house core: read into instructions, and written from them (document 01, "The words").
#![tactic(auto)]

mod field;
mod instruction;
mod opcode;
mod operands;
mod pack;
mod read;
mod rule;
mod template;
mod write;

pub use field::movei_number;
pub use instruction::{
    BinaryOp, CompareOp, ControlOp, Instruction, JumpOp, LoadOp, MemoryOp, MoveiOp, Operation,
    StoreOp, UnaryOp, Unreadable,
};
pub use opcode::opcode_of;
pub use operands::{Slot, Slots, slots_of};
pub use read::read_word;
pub use template::template_of;
pub use write::write_word;
