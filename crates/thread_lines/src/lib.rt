// The lines that the runner prints of a machine's threads, put into a lent buffer.
#![tactic(auto)]

mod line;
mod lines;

pub use line::put_carried;
pub use lines::put_threads;
