// Words as signed numbers, in two's complement: definitions and laws alone, which crates that know nothing of each other cite.
#![tactic(auto)]
