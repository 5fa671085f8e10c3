// The tokens of a program's text: blanks, words and marks, and what a word is.
#![tactic(auto)]

mod byte;
mod token;
mod word;

pub use byte::is_blank;
pub use token::{Token, past_mark, past_run, token_at};
pub use word::{decimal, is_label, number_of};
