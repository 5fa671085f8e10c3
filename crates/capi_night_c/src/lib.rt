// Exports the C library's call of the night box to C: the export is the call of crate capi_night of its name.
#![tactic(auto)]

ghost use Rattle.std.specs.Prelude.{◌≡◌};
ghost use Rattle.capi_night.specs.Calls.{minute_call, ticked};

use image::RECORD_LENGTH;

// One local minute; any `marked` but 0 marks the autumn fall-back.
#[unsafe(no_mangle)]
pub extern "C" fn korvammel_night_minute(
    program: &[u32],
    registers: &mut [u32],
    memory: &mut [u8],
    bytes: &mut [u8; RECORD_LENGTH],
    kept: &mut [u32; 2],
    minute: u32,
    marked: u32,
    res: &mut [u32; 2],
) -> u32
    ensures { ticked result res.new kept.new registers.new memory.new bytes.new
        ≡ minute_call program.now registers.old memory.old bytes.old kept.old minute marked }
{
    capi_night::korvammel_night_minute(program, registers, memory, bytes, kept, minute, marked, res)
}
