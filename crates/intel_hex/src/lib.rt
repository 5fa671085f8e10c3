// Programs in Intel HEX (document 02, T-06): export and import.
#![tactic(auto)]

mod digits;
mod exporting;
mod importing;
mod place;
mod record;
mod scan;
mod storing;

pub use exporting::{LONGEST, export};
pub use importing::import;
