// The saved image of a machine, written and read (document 01, "Saved image").
#![tactic(auto)]

mod bytes;
mod entries;
mod fields;
mod heads;
mod opening;
mod reading;
mod verdicts;
mod writing;

pub use opening::{RECORD_LENGTH, read_record, write_record};
pub use reading::read;
pub use writing::{write, write_as, write_old};
