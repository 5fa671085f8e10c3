// Compares of 32-bit words (document 01, "The words"), as one rule (document 02, T-07 and T-08).
#![tactic(auto)]

mod rows;

pub use rows::{CompareRow, Kind, compare, compare_row, order, order_biased, pick};
