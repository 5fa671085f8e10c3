// A thread's entry of the machine record: its status with what that carries, its count of turns, and what is asked of one (document 01,
// "What a machine holds").
#![tactic(auto)]

mod idle;
mod meeting;
mod running;
mod status;
mod waiting;

pub use idle::is_idle;
pub use meeting::{waits_at, waits_otherwise};
pub use running::is_running;
pub use status::{GREATEST_BARRIER, Limits, Status, Thread, many_more};
pub use waiting::is_waiting;
