// When a record is well formed.
ghost use Rattle.std.specs.Prelude.{◌<◌, ◌&&◌, not, ◌≡◌, ltb, eqb};
ghost use Rattle.bits.specs.Bit.{bit};
ghost use Rattle.thread_entry.specs.Status.{carries_in_range, if_waiting};
ghost use Rattle.machine.specs.Machine.{status_at};
ghost use Rattle.machine.specs.WellFormed.{well_formed_within, waiting, disputed, idle_if_disabled, count_agreed, fewer_wait, well_formed};

use crate::range::{carries_in_range, standard};
use machine::Machine;
use thread_entry::{Limits, Status, is_idle, waits_at, waits_otherwise};

// Whether a thread's bit in a mask is 0.
fn is_disabled(mask: u8, thread: usize) -> bool
    requires { thread < 8 }
    ensures { result ≡ eqb (bit mask thread) 0 }
{
    (mask >> thread) % 2 == 0
}

// Of a thread that waits: whether all that wait with it name its count, and are fewer. It makes its own pass, so that `others`
// of `machine` is called at a meeting alone and stands in its code.
fn fewer_agree(machine: Machine, thread: usize, id: u8, count: u8) -> bool
    ensures { result ≡ (not (disputed machine thread id count) && ltb (waiting machine id) count) }
{
    let mut n = 0;
    for (t, entry) in machine.threads.iter().enumerate() {
        if t != thread && waits_otherwise(entry.status, id, count) {
            return false;
        }
        if waits_at(entry.status, id) {
            n += 1;
        }
    }
    n < usize::from(count)
}

// The same of any thread: one that does not wait is in order.
fn barrier_in_order(machine: Machine, thread: usize, status: Status) -> bool
    ensures { result ≡ (if_waiting status (λ id count. not (disputed machine thread id count)) && if_waiting status (λ id count. ltb (waiting machine id) count)) }
{
    match status {
        Status::Waiting(id, count) => fewer_agree(machine, thread, id, count),
        _ => true,
    }
}

// Whether one thread's entry is as it should be.
fn entry_in_order(machine: Machine, thread: usize, limits: Limits) -> bool
    requires { thread < 8 }
    ensures { result ≡ (carries_in_range limits (status_at machine thread) && idle_if_disabled machine thread && (count_agreed machine thread && fewer_wait machine thread)) }
{
    let status = machine.threads[thread].status;
    carries_in_range(status, limits)
        && is_idle(status) == is_disabled(machine.enabled, thread)
        && barrier_in_order(machine, thread, status)
}

// Whether the record is well formed, with every number in range.
pub fn well_formed(machine: Machine) -> bool
    ensures { result ≡ well_formed machine }
{
    well_formed_within(machine, standard())
}

// The same within any limits.
fn well_formed_within(machine: Machine, limits: Limits) -> bool
    ensures { result ≡ well_formed_within limits machine }
{
    if machine.enabled == 0 || 7 < machine.last {
        return false;
    }
    // By number: an entry is judged together with the others of its barrier, and over `all` of the numbers the proof did not close.
    for thread in 0..8 {
        if !entry_in_order(machine, thread, limits) {
            return false;
        }
    }
    true
}
