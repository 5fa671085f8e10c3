// The counts of turns of a machine's threads: read, put, and counted by rounds (document 02, T-05).
#![tactic(auto)]

mod counts;
mod rounds;

pub use counts::{turns, with_turns};
pub use rounds::count_rounds;
