// The machine record, and how one thread's entry changes.
ghost use Rattle.std.specs.Prelude.{◌≡◌};
ghost use Rattle.machine.specs.Machine.{with_status_at, trap, end};

use thread_entry::{Status, Thread};

// A bit of `enabled` for each thread, the thread issued last, and an entry for each thread.
#[derive(Clone, Copy, Debug, PartialEq, Eq)]
pub struct Machine {
    pub enabled: u8,
    pub threads: [Thread; 8],
    pub last: u8,
}

impl Machine {
    // The record with another status of one thread. Every entry is passed, each at its fixed place: a place known only when it
    // runs would have the compiler copy the whole record for each issue.
    pub(crate) fn with_status(mut self, thread: usize, status: Status) -> Machine
        ensures { result ≡ with_status_at self thread status }
    {
        for (t, entry) in self.threads.iter_mut().enumerate() {
            if t == thread {
                entry.status = status;
            }
        }
        self
    }

    // The thread trapped with a reason. It is "last" already: `choose` made it so.
    pub fn trap(self, thread: usize, reason: u8) -> Machine
        ensures { result ≡ trap self thread reason }
    {
        self.with_status(thread, Status::Trapped(reason))
    }

    // The thread ended.
    pub fn end(self, thread: usize) -> Machine
        ensures { result ≡ end self thread }
    {
        self.with_status(thread, Status::Ended)
    }
}
