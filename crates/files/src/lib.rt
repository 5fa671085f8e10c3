// Files and streams, whole: read into a lent buffer, written, and what is said where that fails.
#![tactic(auto)]

mod complaints;
mod numbered;
mod reading;
mod writing;

pub use complaints::{complain, fail, refuse, refuse_at};
pub use numbered::{read_numbered, write_numbered, write_numbered_synced};
pub use reading::{Failed, read_file, read_stream};
pub use writing::{write_file, write_stream, write_synced, write_words};
