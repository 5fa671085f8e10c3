// One local minute of the night box, with the machine record as bytes and the kept minute as two numbers.
ghost use Rattle.std.specs.Prelude.{◌≡◌};
ghost use Rattle.capi_night.specs.Calls.{kept_in, ticked, returned, minute_call};

use answer::{Refusal, lengths_verdict};
use image::RECORD_LENGTH;
use night::Tick;

// The minute kept: none where the first number is 0, else the second.
#[tactic(auto, unfolding(crate::specs::Calls::kept_in))]
fn kept_in(numbers: &[u32; 2]) -> Option<u32>
    ensures { result ≡ kept_in numbers.now }
{
    if numbers[0] == 0 {
        None
    } else {
        Some(numbers[1])
    }
}

// One local minute from a machine record: the clock is judged first, then the lengths, then the record's bytes.
fn minute_from(
    program: &[u32],
    registers: &mut [u32],
    memory: &mut [u8],
    bytes: &[u8; RECORD_LENGTH],
    kept: &[u32; 2],
    minute: u32,
    marked: u32,
) -> Result<Tick, Refusal>
    ensures { returned result kept.now registers.new memory.new bytes.now
        ≡ minute_call program.now registers.old memory.old bytes.now kept.now minute marked }
{
    let last = kept_in(kept);
    night::clock_verdict(memory.len(), last, minute)?;
    lengths_verdict(program.len(), registers.len(), memory.len())?;
    let machine = image::read_record(bytes)?;
    night::tick(
        program,
        registers,
        memory,
        machine,
        last,
        minute,
        marked != 0,
    )
}

// One local minute; any `marked` but 0 marks the autumn fall-back.
pub fn korvammel_night_minute(
    program: &[u32],
    registers: &mut [u32],
    memory: &mut [u8],
    bytes: &mut [u8; RECORD_LENGTH],
    kept: &mut [u32; 2],
    minute: u32,
    marked: u32,
    res: &mut [u32; 2],
) -> u32
    ensures { ticked result res.new kept.new registers.new memory.new bytes.new
        ≡ minute_call program.now registers.old memory.old bytes.old kept.old minute marked }
{
    match minute_from(program, registers, memory, bytes, kept, minute, marked) {
        Ok(tick) => {
            image::write_record(tick.machine, bytes);
            *kept = [1, tick.minute];
            *res = [tick.skipped, tick.relays];
            0
        }
        Err(refusal) => {
            *res = [0, 0];
            refusal.number() as u32
        }
    }
}
