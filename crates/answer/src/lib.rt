// What a call gives back: a value, or a number of document 01's table "Numbers given back".
#![tactic(auto)]

mod reason;
mod refusal;

pub use reason::Reason;
pub use refusal::{
    BLOCK_BYTES, BLOCK_RECORD, FIXED_PART, MEMORY_BYTES, OLD_FIXED_PART, PROGRAM_WORDS,
    REGISTER_WORDS, Refusal, RefusedLine, bad_mask, bad_memory, bad_program, bad_registers,
    first_refusal, lengths_verdict, sizes_verdict,
};
