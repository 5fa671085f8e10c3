// Text in a lent buffer: bytes put at a place, and numbers in hex and decimal; and numbers read from text.
#![tactic(auto)]

mod buffer;
mod number;
mod parsing;

pub use buffer::put_text;
pub use number::{digit_of, hex_of, put_decimal, put_long};
pub use parsing::number_of;
