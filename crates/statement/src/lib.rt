// One line of a program as text: a name, its operands, and the word that they mean.
#![tactic(auto)]

mod lines;
mod mnemonics;
mod operands;
mod registers;
mod words;

pub use lines::{Line, line_of, up_to};
pub use operands::OperandValues;
pub use registers::Register;
pub use words::word_of;
