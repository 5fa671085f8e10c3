// What a run asks of a record beside the thread to issue.
ghost use Rattle.std.specs.Prelude.{◌≡◌};
ghost use Rattle.machine.specs.Scheduler.{with_last, some_waits};

use machine::Machine;
use thread_entry::is_waiting;

// Whether a thread waits: what tells a stuck machine from a stopped one.
pub fn some_waits(machine: Machine) -> bool
    ensures { result ≡ some_waits machine }
{
    machine.threads.iter().any(|entry| is_waiting(entry.status))
}

// The record with another thread "last".
pub fn with_last(machine: Machine, last: u8) -> Machine
    ensures { result ≡ with_last machine last }
{
    Machine { last, ..machine }
}
