// The names of instructions (document 01, "The words").
#![tactic(auto)]

mod name;

pub use name::{COUNT, Name, NameRow, name_of, table};
