// Meeting at a barrier.
ghost use Rattle.std.specs.Prelude.{◌%◌, ◌<◌, ◌≡◌};
ghost use Rattle.machine.specs.Barrier.{released, release, agreed_others, arrive_or_trap, reach_barrier};

use crate::record::Machine;
use answer::Reason;
use thread_entry::{GREATEST_BARRIER, Status, is_waiting, waits_at, waits_otherwise};

// The record after a meeting, and whether the thread was trapped instead of waiting. A flag beside the record: there is one in both
// cases, and a Result of a record or a record is no plainer.
#[derive(Clone, Copy, Debug, PartialEq, Eq)]
pub struct BarrierResult {
    pub trapped: bool,
    pub machine: Machine,
}

// A status once a barrier is released.
fn released(status: Status, id: u8) -> Status
    ensures { result ≡ released id status }
{
    if waits_at(status, id) {
        Status::Running
    } else {
        status
    }
}

impl Machine {
    // How many others wait at a barrier, unless one of them waits there with another count. One pass, which asks first whether an
    // entry waits at all: few do.
    fn others(self, thread: usize, id: u8, count: u8) -> Option<usize>
        ensures { result ≡ agreed_others self thread id count }
    {
        let mut n = 0;
        for (t, entry) in self.threads.iter().enumerate() {
            let status = entry.status;
            if is_waiting(status) && t != thread && waits_at(status, id) {
                if waits_otherwise(status, id, count) {
                    return None;
                }
                n += 1;
            }
        }
        Some(n)
    }

    // Every thread that waits at a barrier is running.
    fn release(mut self, id: u8) -> Machine
        ensures { result ≡ release self id }
    {
        for entry in self.threads.iter_mut() {
            entry.status = released(entry.status, id);
        }
        self
    }

    // A thread comes to a barrier: it is trapped where another waits there with another count; it waits; or, if as many wait there now as
    // the count says, all of them are running.
    fn arrive(self, thread: usize, id: u8, count: u8) -> BarrierResult
        requires { thread < 8 }
        ensures { result ≡ arrive_or_trap self thread id count }
    {
        let Some(n) = self.others(thread, id, count) else {
            return BarrierResult {
                trapped: true,
                machine: self.trap(thread, Reason::BarrierRefused.number()),
            };
        };
        let machine = if n + 1 == usize::from(count) {
            self.with_status(thread, Status::Running).release(id)
        } else {
            self.with_status(thread, Status::Waiting(id, count))
        };
        BarrierResult {
            trapped: false,
            machine,
        }
    }

    // A thread meets others at a barrier, or is trapped. The register values are the id, and the count less one. A number past the last
    // thread's goes round.
    pub fn reach_barrier(self, thread: usize, id: u32, second: u32) -> BarrierResult
        ensures { result ≡ reach_barrier self (thread % 8) id second }
    {
        let t = thread % 8;
        if (u32::from(GREATEST_BARRIER) < id) | (7 < second) {
            return BarrierResult {
                trapped: true,
                machine: self.trap(t, Reason::BarrierRefused.number()),
            };
        }
        self.arrive(t, id as u8, (second + 1) as u8)
    }
}
