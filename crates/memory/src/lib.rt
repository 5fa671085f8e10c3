// Loads and stores on data memory (document 01, "The words", M).
#![tactic(auto)]

mod bytes;
mod lanes;
mod place;
mod scalar;

pub use lanes::{load_lanes, store_lanes};
pub use scalar::{load, store};
