// What becomes of a thread by an instruction that does not trap.

#[derive(Clone, Copy, Debug, PartialEq, Eq)]
pub enum Effect {
    // Nothing: the thread goes on.
    Stays,
    // The thread ends.
    Ends,
    // The thread meets others at a barrier: the barrier's id, and the count less one.
    ReachesBarrier(u32, u32),
}
