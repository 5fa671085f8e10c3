// The C library's call on programs as text, as include/korvammel.h declares it.
#![tactic(auto)]

mod calls;

pub use calls::korvammel_assemble;
