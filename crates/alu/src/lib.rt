// Operations on 32-bit words (document 01, "The words").
#![tactic(auto)]

mod extend;
mod product;
mod scalar;
mod shift;

pub use scalar::{arithmetic, binary, conversion, integer, integer_unary, unary};
