// The C library's traced run, as include/korvammel.h declares it.
#![tactic(auto)]

mod calls;
mod filling;
mod numbers;

pub use calls::korvammel_run_traced;
