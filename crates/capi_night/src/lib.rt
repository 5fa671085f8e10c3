// The C library's call of the night box, as include/korvammel.h declares it.
#![tactic(auto)]

mod calls;

pub use calls::korvammel_night_minute;
