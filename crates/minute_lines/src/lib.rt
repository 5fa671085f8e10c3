// The lines of the night box: minutes read byte by byte, and answers as text (document 02, T-14).
#![tactic(auto)]

mod answers;
mod parsing;
mod taking;

pub use answers::LONGEST;
pub use parsing::Line;
pub use taking::{Held, Step, take_byte, take_end};
