// One issue of a thread (document 01, "One issue" and "The words").
#![tactic(auto)]

mod access;
mod context;
mod control;
mod effect;
mod execute;
mod immediate;
mod issuing;
mod jump;
mod operand;
mod operation;
mod registers;
mod total;

pub use issuing::{Issued, fits, issue};
pub use operand::splat;
pub use total::{advance, in_program, replace, scalar, set_scalar, set_vector, vector};
