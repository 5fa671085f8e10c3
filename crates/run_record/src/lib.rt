// The machine record of a start and of a run: every number 0, started, another thread "last", and whether a thread waits (document 01,
// "What a machine holds", "Choosing and counting issues").
#![tactic(auto)]

mod scheduling;
mod starting;

pub use scheduling::{some_waits, with_last};
pub use starting::{started, zero};
