// The record with every number 0, and the one that a mask starts.
ghost use Rattle.std.specs.Prelude.{◌<◌, ◌≡◌};
ghost use Rattle.machine.specs.Machine.{zeroed, start_status, start};

use machine::Machine;
use thread_entry::{Status, Thread};

// The status that a thread starts with.
fn start_status(mask: u8, thread: usize) -> Status
    requires { thread < 8 }
    ensures { result ≡ start_status mask thread }
{
    if (mask >> thread) % 2 == 0 {
        Status::Idle
    } else {
        Status::Running
    }
}

// The record with every number 0.
pub fn zero() -> Machine
    ensures { result ≡ zeroed }
{
    Machine {
        enabled: 0,
        last: 0,
        threads: [Thread::new(Status::Idle, 0); 8],
    }
}

// The record that a mask starts: its threads running, and 7 last.
pub fn started(mask: u8) -> Machine
    ensures { result ≡ start mask }
{
    let mut machine = Machine {
        enabled: mask,
        last: 7,
        ..zero()
    };
    for (t, entry) in machine.threads.iter_mut().enumerate() {
        entry.status = start_status(mask, t);
    }
    machine
}
