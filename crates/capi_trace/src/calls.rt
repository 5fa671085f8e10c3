// The traced run, from the machine record and into it.
ghost use Rattle.std.specs.Prelude.{◌≡◌};
ghost use Rattle.capi.specs.Runs.{ran, called};
ghost use Rattle.capi_trace.specs.Calls.{traced_ran, run_traced_call};

use crate::filling::fill;
use crate::numbers::ROW_NUMBERS;
use answer::{Refusal, lengths_verdict};
use capi::ending;
use image::RECORD_LENGTH;
use interpreter::Run;

// Runs a program from a machine record, and puts a row for each issue: the lengths are judged before the record's bytes.
fn run_from(
    program: &[u32],
    registers: &mut [u32],
    memory: &mut [u8],
    bytes: &[u8; RECORD_LENGTH],
    budget: u32,
    rows: &mut [u32],
) -> Result<Run, Refusal>
    ensures { traced_ran (called result registers.new memory.new bytes.now) rows.new
        ≡ run_traced_call program.now budget registers.old memory.old bytes.now rows.old }
{
    lengths_verdict(program.len(), registers.len(), memory.len())?;
    let machine = image::read_record(bytes)?;
    let limit = trace::smaller(budget, rows.len() / ROW_NUMBERS);
    fill(program, registers, memory, machine, limit, rows)
}

// Runs a program, and puts a row for each issue.
pub fn korvammel_run_traced(
    program: &[u32],
    registers: &mut [u32],
    memory: &mut [u8],
    bytes: &mut [u8; RECORD_LENGTH],
    budget: u32,
    rows: &mut [u32],
    res: &mut [u32; 4],
) -> u32
    ensures { traced_ran (ran result res.new registers.new memory.new bytes.new) rows.new
        ≡ run_traced_call program.now budget registers.old memory.old bytes.old
        rows.old }
{
    match run_from(program, registers, memory, bytes, budget, rows) {
        Ok(run) => {
            image::write_record(run.machine, bytes);
            let low = (run.looks % 0x100000000) as u32;
            let high = (run.looks / 0x100000000) as u32;
            *res = [ending(run.stop), run.issues, low, high];
            0
        }
        Err(refusal) => {
            *res = [0, 0, 0, 0];
            refusal.number() as u32
        }
    }
}
