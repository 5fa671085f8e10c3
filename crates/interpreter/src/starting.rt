// A machine is started.
ghost use Rattle.std.specs.Prelude.{◌≤◌, ◌≡◌, length};
ghost use Rattle.answer.specs.Refusal.{number_of};
ghost use Rattle.interpreter.specs.Refusal.{start_number};
ghost use Rattle.interpreter.specs.Start.{with_masks, started, start};

use answer::{Refusal, bad_mask, bad_registers};
use machine::{LANE_MASK, Machine};

// Refuses a start: its mask, or the words of its register file.
#[tactic(auto, unfolding(crate::specs::Refusal::start_number, answer::specs::Refusal::first_that_applies))]
fn start_verdict(mask: u32, regs: usize) -> Result<(), Refusal>
    ensures { number_of result ≡ start_number mask regs }
{
    if bad_registers(regs) {
        return Err(Refusal::Registers);
    }
    if bad_mask(mask) {
        return Err(Refusal::Mask);
    }
    Ok(())
}

// Every thread's s59 has all sixteen lanes on.
fn set_masks(registers: &mut [u32])
    requires { 512 ≤ length registers.old }
    ensures { registers.new ≡ with_masks 8 registers.old }
{
    // By index: one word in 64 is written, of the first eight alone, and a chain of chunks is no plainer.
    for thread in 0..8 {
        registers[64 * thread + LANE_MASK as usize] = 0xFFFF;
    }
}

// The machine that an enabled mask starts. A refusal changes nothing.
pub fn start(mask: u32, registers: &mut [u32]) -> Result<Machine, Refusal>
    ensures { started result registers.new ≡ start mask registers.old }
{
    start_verdict(mask, registers.len())?;
    registers.fill(0);
    set_masks(registers);
    Ok(run_record::started(mask as u8))
}
