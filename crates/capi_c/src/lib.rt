// Exports the C library's calls on a machine to C: each export is the call of crate capi of its name.
#![tactic(auto)]

ghost use Rattle.std.specs.Prelude.{◌≡◌};
ghost use Rattle.answer.specs.Left.{left};
ghost use Rattle.capi.specs.Images.{read_call, restored, write_call, write_old_call};
ghost use Rattle.capi.specs.Runs.{begun, ran, run_call, start_call};

use image::RECORD_LENGTH;

// Starts the threads of a mask, and writes the machine record.
#[unsafe(no_mangle)]
pub extern "C" fn korvammel_start(
    mask: u32,
    registers: &mut [u32],
    bytes: &mut [u8; RECORD_LENGTH],
) -> u32
    ensures { begun result registers.new bytes.new ≡ start_call mask registers.old }
{
    capi::korvammel_start(mask, registers, bytes)
}

// Runs a program, from the machine record and into it.
#[unsafe(no_mangle)]
pub extern "C" fn korvammel_run(
    program: &[u32],
    registers: &mut [u32],
    memory: &mut [u8],
    bytes: &mut [u8; RECORD_LENGTH],
    budget: u32,
    res: &mut [u32; 4],
) -> u32
    ensures { ran result res.new registers.new memory.new bytes.new ≡ run_call program.now budget registers.old memory.old bytes.old }
{
    capi::korvammel_run(program, registers, memory, bytes, budget, res)
}

// Writes a machine's image.
#[unsafe(no_mangle)]
pub extern "C" fn korvammel_image_write(
    registers: &[u32],
    memory: &[u8],
    bytes: &[u8; RECORD_LENGTH],
    buffer: &mut [u8],
) -> u32
    ensures { left result buffer.new ≡ write_call registers.now memory.now bytes.now buffer.old }
{
    capi::korvammel_image_write(registers, memory, bytes, buffer)
}

// Writes a machine's image in the old form; any `drop` but 0 allows its counts of turns to be dropped.
#[unsafe(no_mangle)]
pub extern "C" fn korvammel_image_write_old(
    registers: &[u32],
    memory: &[u8],
    bytes: &[u8; RECORD_LENGTH],
    drop: u32,
    buffer: &mut [u8],
) -> u32
    ensures { left result buffer.new ≡ write_old_call registers.now memory.now bytes.now drop buffer.old }
{
    capi::korvammel_image_write_old(registers, memory, bytes, drop, buffer)
}

// Reads an image into registers, memory and machine record.
#[unsafe(no_mangle)]
pub extern "C" fn korvammel_image_read(
    image: &[u8],
    registers: &mut [u32],
    memory: &mut [u8],
    bytes: &mut [u8; RECORD_LENGTH],
) -> u32
    ensures { restored result registers.new memory.new bytes.new ≡ read_call image.now registers.old memory.old }
{
    capi::korvammel_image_read(image, registers, memory, bytes)
}
