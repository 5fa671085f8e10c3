// Exports the C library's traced run to C: the export is the call of crate capi_trace of its name.
#![tactic(auto)]

ghost use Rattle.std.specs.Prelude.{◌≡◌};
ghost use Rattle.capi.specs.Runs.{ran};
ghost use Rattle.capi_trace.specs.Calls.{run_traced_call, traced_ran};

use image::RECORD_LENGTH;

// Runs a program, and puts a row for each issue.
#[unsafe(no_mangle)]
pub extern "C" fn korvammel_run_traced(
    program: &[u32],
    registers: &mut [u32],
    memory: &mut [u8],
    bytes: &mut [u8; RECORD_LENGTH],
    budget: u32,
    rows: &mut [u32],
    res: &mut [u32; 4],
) -> u32
    ensures { traced_ran (ran result res.new registers.new memory.new bytes.new) rows.new
        ≡ run_traced_call program.now budget registers.old memory.old bytes.old
        rows.old }
{
    capi_trace::korvammel_run_traced(program, registers, memory, bytes, budget, rows, res)
}
