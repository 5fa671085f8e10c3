// A compare of sixteen lanes as a bit a lane (document 01, "The words").
#![tactic(auto)]

mod outcome;

pub use outcome::{compare_lanes, flags};
