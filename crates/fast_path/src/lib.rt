// The fast path of an issue: frequent words straight from their top byte (document 01, "One issue").
#![tactic(auto)]

mod action;
mod family;
mod field;
mod issuing;
mod lanes;
mod registers;
mod table;

pub use issuing::try_word;
