// The interpreter of the house core: a machine is started, and a program run on it (document 01, "What a machine holds",
// "Numbers given back", "Choosing and counting issues").
#![tactic(auto)]

mod outcome;
mod running;
mod starting;

pub use outcome::{Run, Stop};
pub use running::run;
pub use starting::start;
