// The traced run: the plain run with a budget of one issue, time after time, and a row of the list for each.
ghost use Rattle.std.specs.Prelude.{◌≡◌, ◌&&◌, length, nat_lt, slice_set};
ghost use Rattle.std.proofs.Math.Option.{none};
ghost use Rattle.interpreter.specs.Run.{number, outcome, run};
ghost use Rattle.machine.specs.State.{state};
ghost use Rattle.trace.specs.Traced.{least, is_spent, traced, run_traced};
ghost use Rattle.trace.specs.Turn.{Advanced};

use crate::joining::joined;
use crate::row::{Row, address_of, next_thread, status_of, word_at};
use answer::Refusal;
use interpreter::{Run, Stop};
use machine::Machine;

// One issue more: what the plain run hands back that makes so many, and the row for the issue.
#[derive(Clone, Copy)]
pub struct Step {
    pub run: Run,
    pub row: Row,
}

// Writes one row; past the end of the list nothing changes.
fn put_row(rows: &mut [Row], at: usize, row: Row)
    ensures { rows.new ≡ slice_set rows.old at row }
{
    if at < rows.len() {
        rows[at] = row;
    }
}

// The smaller of a budget and a list's length. By hand: they are of different types, and by `min` each call would have two conversions.
#[tactic(auto, unfolding(crate::specs::Traced::least))]
pub fn smaller(budget: u32, room: usize) -> u32
    ensures { result ≡ least budget room }
{
    if room < budget as usize {
        room as u32
    } else {
        budget
    }
}

// Whether a run goes on: it has a thread running, and may make an issue more.
fn goes_on(run: Run, limit: u32) -> bool
    ensures { result ≡ (is_spent run.stop && nat_lt run.issues limit) }
{
    (run.stop == Stop::Spent) & (run.issues < limit)
}

// A run with no budget: it tells whether a run is refused, and whether a thread is running. Apart, so that what the call answers has no
// place on the stack while the loop runs.
fn begin(
    program: &[u32],
    registers: &mut [u32],
    memory: &mut [u8],
    machine: Machine,
) -> Result<Run, Refusal>
    ensures { outcome result machine registers.new memory.new ≡ run program.now 0 (state machine registers.old memory.old) }
{
    let run = interpreter::run(program, registers, memory, machine, 0)?;
    Ok(run)
}

// The next issue, by a run with a budget of one. A run that goes on from one that was taken is not refused.
fn advance(program: &[u32], registers: &mut [u32], memory: &mut [u8], so_far: Run) -> Step
    requires { number program.now (state so_far.machine registers.old memory.old) ≡ none }
    ensures { Advanced program.now so_far registers.old memory.old
        result registers.new memory.new }
{
    let thread = next_thread(so_far.machine);
    let address = address_of(registers, thread);
    let word = word_at(program, address);
    let one = interpreter::run(program, registers, memory, so_far.machine, 1).unwrap();
    Step {
        run: joined(so_far, one),
        row: Row {
            thread,
            address,
            word,
            status: status_of(one.machine, thread),
        },
    }
}

// Runs a program as `interpreter::run` does with the smaller of the budget and the list's length, and puts a row for each issue. A run
// with no budget tells whether it is refused, and whether a thread is running. It goes on by what the last run answered: it may end
// before the list does. Program, registers and memory go one by one, as `interpreter::run` takes them.
pub fn run_traced(
    program: &[u32],
    registers: &mut [u32],
    memory: &mut [u8],
    machine: Machine,
    budget: u32,
    rows: &mut [Row],
) -> Result<Run, Refusal>
    ensures { traced result machine registers.new memory.new rows.new
        ≡ run_traced program.now budget (state machine registers.old memory.old) rows.old }
{
    let limit = smaller(budget, rows.len());
    let mut run = begin(program, registers, memory, machine)?;
    while goes_on(run, limit) {
        let step = advance(program, registers, memory, run);
        put_row(rows, run.issues as usize, step.row);
        run = step.run;
    }
    Ok(run)
}
