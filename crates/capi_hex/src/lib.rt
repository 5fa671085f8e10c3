// The C library's calls on Intel HEX, as include/korvammel.h declares them.
#![tactic(auto)]

mod calls;

pub use calls::{korvammel_hex_export, korvammel_hex_import};
