// What a run hands back.
use machine::Machine;

// How a run ends that is not refused.
#[derive(Clone, Copy, Debug, PartialEq, Eq)]
pub enum Stop {
    Stopped,
    Stuck,
    Spent,
}

// How it ended, the number of issues made, how many entries were looked at to choose their threads and to find no other, and the record
// that they reach. Eight looks an issue pass 32 bits.
#[derive(Clone, Copy, Debug, PartialEq, Eq)]
pub struct Run {
    pub stop: Stop,
    pub issues: u32,
    pub looks: u64,
    pub machine: Machine,
}
