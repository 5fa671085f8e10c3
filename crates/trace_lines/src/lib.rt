// The lines that a trace prints, put into a lent buffer.
#![tactic(auto)]

mod line;
mod page;

pub use page::{PAGE_LONGEST, write_page};
