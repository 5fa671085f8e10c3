// What the runner prints, as a function of how a run ended, put into a lent buffer.
#![tactic(auto)]

mod looks;
mod summary;

pub use looks::{LOOKS_LONGEST, write_looks};
pub use summary::{LONGEST, write_report};
