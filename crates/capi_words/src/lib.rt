// The C library's calls on instruction words, as include/korvammel.h declares them.
#![tactic(auto)]

mod words;

pub use words::{korvammel_name, korvammel_read_word, korvammel_write_word};
