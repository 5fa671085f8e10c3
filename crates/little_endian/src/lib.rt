// Numbers in bytes, the lowest byte first: the word at a place. The definitions serve every crate that has numbers in bytes.
#![tactic(auto)]

mod word;

pub use word::word_at;
