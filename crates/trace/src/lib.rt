// A traced run (02, T-03): the plain run, and a row of a lent list for each issue.
#![tactic(auto)]

mod joining;
mod page;
mod row;
mod tracing;

pub use joining::{continued, joined};
pub use page::{PAGE_ROWS, Page, run_page};
pub use row::Row;
pub use tracing::{run_traced, smaller};
