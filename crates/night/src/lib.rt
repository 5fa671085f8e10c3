// The night box: one call a local minute, on what the interpreter promises of its runs and on nothing else of it (document 02, T-14).
#![tactic(auto)]

mod bytes;
mod clock;
mod outcome;
mod ticking;

pub use clock::clock_verdict;
pub use outcome::Tick;
pub use ticking::tick;
