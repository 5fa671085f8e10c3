// Sixteen lanes of 32-bit words: the operations lane by lane, under a lane mask (document 01, "One issue" and "The words").
#![tactic(auto)]

mod lanes;

pub use lanes::{binary_masked, blend, each_integer, is_on, shuffle, unary_masked};
