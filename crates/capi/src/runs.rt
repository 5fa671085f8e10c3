// A start and a run.
ghost use Rattle.std.specs.Prelude.{◌≡◌};
ghost use Rattle.capi.specs.Runs.{begun, start_call, ran, called, run_call};

use crate::numbers::{ending, high_half, low_half, number};
use answer::{Refusal, lengths_verdict};
use image::RECORD_LENGTH;
use interpreter::Run;

// Starts the threads of a mask, and writes the machine record.
pub fn korvammel_start(mask: u32, registers: &mut [u32], bytes: &mut [u8; RECORD_LENGTH]) -> u32
    ensures { begun result registers.new bytes.new ≡ start_call mask registers.old }
{
    let start = interpreter::start(mask, registers);
    image::write_record(start.unwrap_or(run_record::zero()), bytes);
    number(&start)
}

// Runs a program from a machine record: its lengths are judged before the record's bytes.
fn run_from(
    program: &[u32],
    registers: &mut [u32],
    memory: &mut [u8],
    bytes: &[u8; RECORD_LENGTH],
    budget: u32,
) -> Result<Run, Refusal>
    ensures { called result registers.new memory.new bytes.now ≡ run_call program.now budget registers.old memory.old bytes.now }
{
    lengths_verdict(program.len(), registers.len(), memory.len())?;
    let machine = image::read_record(bytes)?;
    interpreter::run(program, registers, memory, machine, budget)
}

// Runs a program, from the machine record and into it.
pub fn korvammel_run(
    program: &[u32],
    registers: &mut [u32],
    memory: &mut [u8],
    bytes: &mut [u8; RECORD_LENGTH],
    budget: u32,
    res: &mut [u32; 4],
) -> u32
    ensures { ran result res.new registers.new memory.new bytes.new ≡ run_call program.now budget registers.old memory.old bytes.old }
{
    let answer = run_from(program, registers, memory, bytes, budget);
    *res = match answer {
        Ok(made) => {
            image::write_record(made.machine, bytes);
            let low = low_half(made.looks);
            let high = high_half(made.looks);
            [ending(made.stop), made.issues, low, high]
        }
        Err(_) => [0, 0, 0, 0],
    };
    number(&answer)
}
