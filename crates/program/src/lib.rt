// A program's bytes: their words, the bytes of words, and whether they are a program (number 1 of document 01's table).
#![tactic(auto)]

mod reading;
mod writing;

pub use reading::{INPUT_BYTES, bad_bytes, words};
pub use writing::{PROGRAM_BYTES, bytes};
