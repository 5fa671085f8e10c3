// What the lister prints for a program's bytes, put into a lent buffer.
#![tactic(auto)]

mod print;

pub use print::{LONGEST, list};
