// The machine record of the house core: its threads, the scheduler and the barriers (document 01, "What a machine holds",
// "Choosing and counting issues", "Meeting at a barrier").
#![tactic(auto)]

mod barrier;
mod record;
mod register;
mod scheduler;

pub use barrier::BarrierResult;
pub use record::Machine;
pub use register::{LANE_MASK, LINK, PROGRAM_COUNTER};
pub use scheduler::{Chosen, Turn};
