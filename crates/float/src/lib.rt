// The float unit on 32-bit patterns: R opcodes 33 to 42, 48 and 49 (document 02, T-08).
#![tactic(auto)]

mod arithmetic;
mod convert;
mod order;

pub use arithmetic::{fadd, fdiv, fmul, fsub};
pub use convert::{f32toi32, i32tof32};
pub use order::{feq, fge, fgt, fle, flt, fne};
