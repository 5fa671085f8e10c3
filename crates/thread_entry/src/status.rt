// A thread's entry: its status, with what that status carries, and its count of turns.
ghost use Rattle.std.specs.Prelude.{◌≡◌};
ghost use Rattle.thread_entry.specs.Entry.{entry_of, many_more};

// Trapped carries a reason, a number and no `Reason`: an image may hold any, and `well_formed` judges such a record. Waiting carries a
// barrier id and a count.
#[derive(Clone, Copy, Debug, PartialEq, Eq)]
pub enum Status {
    Idle,
    Running,
    Ended,
    Trapped(u8),
    Waiting(u8, u8),
}

// `turns` is how many issues the thread has had since its start, modulo 2^32.
#[derive(Clone, Copy, Debug, PartialEq, Eq)]
pub struct Thread {
    pub status: Status,
    pub turns: u32,
}

// The greatest barrier id: a thread meets no other at a greater one, and a record holds none.
pub const GREATEST_BARRIER: u8 = 31;

// The greatest trap reason and the greatest barrier id that a record may hold.
#[derive(Clone, Copy, Debug, PartialEq, Eq)]
pub struct Limits {
    pub reason: u8,
    pub barrier: u8,
}

// A count with so many issues more: it wraps at 2^32.
#[tactic(auto, using(crate::proofs::Counts::many_more_lem))]
pub fn many_more(turns: u32, issues: u64) -> u32
    ensures { result ≡ many_more issues turns }
{
    turns.wrapping_add((issues % 0x100000000) as u32)
}

impl Thread {
    // The entry of a thread with a status that has had so many turns.
    pub fn new(status: Status, turns: u32) -> Thread
        ensures { result ≡ entry_of status turns }
    {
        Thread { status, turns }
    }
}
