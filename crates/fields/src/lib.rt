// The fields of an instruction word as six numbers, both ways, for those who call from another language (document 01, "The words").
#![tactic(auto)]

mod layout;
mod numbers;

pub use layout::{find, unpack};
pub use numbers::{Found, Numbers};
