// What a call hands back.
use machine::Machine;

// The minute, which is the one to keep for the next call, the minutes skipped, the relays, and the record that the run reached.
#[derive(Clone, Copy, Debug, PartialEq, Eq)]
pub struct Tick {
    pub minute: u32,
    pub skipped: u32,
    pub relays: u32,
    pub machine: Machine,
}
