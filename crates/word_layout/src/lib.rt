// The layout of an instruction word: each format's parts and prefix, and the signed numbers in them (document 01, "The words").
#![tactic(auto)]

mod field;
mod prefix;
mod total;

pub use field::{long_signed, short_signed};
pub use prefix::{PREFIX_C, PREFIX_I, PREFIX_J, PREFIX_M, PREFIX_MOVEI, PREFIX_R};
pub use total::signed_number;
