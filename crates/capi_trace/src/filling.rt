// A traced run page by page, each page's rows put as numbers.
ghost use Rattle.std.specs.Prelude.{◌+◌, ◌*◌, ◌^◌, ◌≤◌, ◌<◌, ◌&&◌, ◌≡◌, ltb, length};
ghost use Rattle.std.proofs.Math.Option.{none};
ghost use Rattle.interpreter.specs.Run.{outcome, number, run};
ghost use Rattle.machine.specs.State.{state};
ghost use Rattle.trace.specs.Traced.{is_spent};
ghost use Rattle.capi_trace.specs.Calls.{filled, filling};
ghost use Rattle.capi_trace.specs.Pages.{Paged};

use crate::numbers::put_page;
use answer::Refusal;
use interpreter::{Run, Stop};
use machine::Machine;
use thread_entry::Status;
use trace::{PAGE_ROWS, Row, smaller};

// Whether a thread is running, and fewer issues were made than may be.
fn goes_on(run: Run, made: u32, limit: u32) -> bool
    ensures { result ≡ (is_spent run.stop && ltb made limit) }
{
    (run.stop == Stop::Spent) & (made < limit)
}

// A run with no budget: it tells whether a run is refused, and whether a thread is running. Apart, so that what the call answers has no
// place on the stack while the pages are run.
fn begin(
    program: &[u32],
    registers: &mut [u32],
    memory: &mut [u8],
    machine: Machine,
) -> Result<Run, Refusal>
    ensures { outcome result machine registers.new memory.new ≡ run program.now 0 (state machine registers.old memory.old) }
{
    let run = interpreter::run(program, registers, memory, machine, 0)?;
    Ok(run)
}

// One page more of a run, which is not refused: its rows are put behind those made.
fn fill_page(
    program: &[u32],
    registers: &mut [u32],
    memory: &mut [u8],
    so_far: Run,
    made: u32,
    left: u32,
    numbers: &mut [u32],
) -> Run
    requires { (made + left < 2 ^ 32) × (number program.now (state so_far.machine registers.old memory.old) ≡ none) }
    ensures { Paged program.now so_far made left registers.old memory.old numbers.old
        result registers.new memory.new numbers.new }
{
    let blank = Row {
        thread: 0,
        address: 0,
        word: 0,
        status: Status::Idle,
    };
    let mut rows = [blank; PAGE_ROWS];
    let run = trace::run_traced(
        program,
        registers,
        memory,
        so_far.machine,
        left,
        &mut rows,
    ).unwrap();
    put_page(numbers, made, &rows[..run.issues as usize]);
    trace::joined(so_far, run)
}

// Runs a program with a budget that the list has room for, and puts the numbers of its rows. By pages: how many there are is known when the
// run ends.
pub fn fill(
    program: &[u32],
    registers: &mut [u32],
    memory: &mut [u8],
    machine: Machine,
    limit: u32,
    numbers: &mut [u32],
) -> Result<Run, Refusal>
    requires { 7 * limit ≤ length numbers.old }
    ensures { filled (outcome result machine registers.new memory.new) numbers.new
        ≡ filling program.now limit (state machine registers.old memory.old) numbers.old }
{
    let mut made: u32 = 0;
    let mut run = begin(program, registers, memory, machine)?;
    while goes_on(run, made, limit) {
        let left = limit - made;
        run = fill_page(program, registers, memory, run, made, left, numbers);
        made += smaller(left, PAGE_ROWS);
    }
    Ok(run)
}
