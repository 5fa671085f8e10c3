// A row of a trace, and what stands in it.
ghost use Rattle.std.specs.Prelude.{◌≡◌, ◌*◌};
ghost use Rattle.execution.specs.Registers.{program_counter};
ghost use Rattle.machine.specs.Machine.{status_at};
ghost use Rattle.machine.specs.Scheduler.{choose};
ghost use Rattle.trace.specs.Rows.{word_at};

use machine::{Machine, PROGRAM_COUNTER};
use thread_entry::Status;

// "thread, address, word (0 where none was fetched), status after"; the status with what it carries.
#[derive(Clone, Copy)]
pub struct Row {
    pub thread: u8,
    pub address: u32,
    pub word: u32,
    pub status: Status,
}

// The thread that is issued next: the one that `choose` makes "last".
pub fn next_thread(machine: Machine) -> u8
    ensures { result ≡ (choose machine).machine.last }
{
    machine.choose().machine.last
}

// A thread's s63; 0 where the register file has none.
pub fn address_of(registers: &[u32], thread: u8) -> u32
    ensures { result ≡ program_counter registers.now thread }
{
    let place = 64 * (thread as usize) + PROGRAM_COUNTER as usize;
    registers.get(place).copied().unwrap_or(0)
}

// The word at an address; 0 where the program has none there.
#[tactic(auto, unfolding(crate::specs::Rows::word_at))]
pub fn word_at(program: &[u32], address: u32) -> u32
    ensures { result ≡ word_at program.now address }
{
    if 0 < address % 4 {
        return 0;
    }
    let place = (address / 4) as usize;
    program.get(place).copied().unwrap_or(0)
}

// A thread's status; idle where there is no such thread.
pub fn status_of(machine: Machine, thread: u8) -> Status
    ensures { result ≡ status_at machine thread }
{
    machine
        .threads
        .get(thread as usize)
        .map_or(Status::Idle, |entry| entry.status)
}
