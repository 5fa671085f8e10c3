// A call of the night box: one local minute. Program, registers and memory go one by one, as `interpreter::run` takes them.
ghost use Rattle.std.specs.Prelude.{◌≡◌};
ghost use Rattle.std.proofs.Math.Option.{none};
ghost use Rattle.machine.specs.State.{state};
ghost use Rattle.night.specs.Refusal.{tick_number};
ghost use Rattle.night.specs.Tick.{tick_outcome, outcome, accepted, tick};

use crate::bytes::{put_reading, relays};
use crate::clock::{clock_verdict, skipped_minutes};
use crate::outcome::Tick;
use answer::Refusal;
use machine::Machine;

// The issues of a minute.
const ISSUES: u32 = 4096;

// A call that is not refused.
fn take_minute(
    program: &[u32],
    registers: &mut [u32],
    memory: &mut [u8],
    machine: Machine,
    kept: Option<u32>,
    minute: u32,
    marked: bool,
) -> Tick
    requires { tick_number program.now (state machine registers.old memory.old) kept minute ≡ none }
    ensures { tick_outcome result registers.new memory.new
        ≡ accepted program.now (state machine registers.old memory.old) kept minute marked }
{
    let skipped = skipped_minutes(kept, minute, marked);
    put_reading(memory, minute, skipped);
    // judged already, and what is written changes nothing that is judged
    let run = interpreter::run(program, registers, memory, machine, ISSUES).unwrap();
    Tick {
        minute,
        skipped,
        relays: relays(memory),
        machine: run.machine,
    }
}

// One local minute: memory is given the minute and the minutes skipped since the last call, 4,096 issues are run, and the relays taken.
// Everything that may be refused is judged before anything is written: a run with no budget is refused for what any run is, and changes
// nothing.
pub fn tick(
    program: &[u32],
    registers: &mut [u32],
    memory: &mut [u8],
    machine: Machine,
    kept: Option<u32>,
    minute: u32,
    marked: bool,
) -> Result<Tick, Refusal>
    ensures { outcome result kept machine registers.new memory.new
        ≡ tick program.now (state machine registers.old memory.old) kept minute marked }
{
    clock_verdict(memory.len(), kept, minute)?;
    interpreter::run(program, registers, memory, machine, 0)?;
    Ok(take_minute(program, registers, memory, machine, kept, minute, marked))
}
