// Turns counted by rounds.
ghost use Rattle.std.specs.Prelude.{◌<◌, ◌≡◌};
ghost use Rattle.machine.specs.Rounds.{between, after_rounds};

use machine::Machine;
use thread_entry::{is_running, many_more};

// How many entries stand between "last" and a thread.
fn between(machine: Machine, thread: usize) -> u32
    requires { thread < 8 }
    ensures { result ≡ between machine thread }
{
    (thread as u32 + 7 - u32::from(machine.last % 8)) % 8
}

// Counts of turns after issues in a row that set no status, of which the last is that of the thread so many entries after "last": each
// round of eight entries has one issue of every running thread.
pub fn count_rounds(machine: Machine, mut turns: [u32; 8], passed: u64) -> [u32; 8]
    ensures { result ≡ after_rounds machine passed turns }
{
    for (thread, has) in turns.iter_mut().enumerate() {
        let running = is_running(machine.threads[thread].status);
        if running {
            let rounds = passed / 8 + (passed % 8 + 7 - u64::from(between(machine, thread))) / 8;
            *has = many_more(*has, rounds);
        }
    }
    turns
}
