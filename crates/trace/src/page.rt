// A page of rows by value, for callers without a list of their own.
ghost use Rattle.std.specs.Prelude.{◌≡◌};
ghost use Rattle.machine.specs.State.{state};
ghost use Rattle.trace.specs.Traced.{traced_page, run_traced};

use crate::row::Row;
use crate::tracing::run_traced;
use answer::Refusal;
use interpreter::Run;
use machine::Machine;

pub const PAGE_ROWS: usize = 64;

// A run, and the list of rows that it left.
#[derive(Clone, Copy)]
pub struct Page {
    pub run: Run,
    pub rows: [Row; PAGE_ROWS],
}

// Lends the list to a traced run, and hands it back; where the run is refused, the caller has its own as it was.
pub fn run_page(
    program: &[u32],
    registers: &mut [u32],
    memory: &mut [u8],
    machine: Machine,
    budget: u32,
    mut rows: [Row; PAGE_ROWS],
) -> Result<Page, Refusal>
    ensures { traced_page result machine registers.new memory.new rows
        ≡ run_traced program.now budget (state machine registers.old memory.old) rows }
{
    let run = run_traced(program, registers, memory, machine, budget, &mut rows)?;
    Ok(Page { run, rows })
}
