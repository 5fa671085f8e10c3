// Bits of numbers: definitions alone, which crates that know nothing of each other cite.
#![tactic(auto)]
