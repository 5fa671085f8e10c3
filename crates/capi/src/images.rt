// The saved image, with the machine record as bytes.
ghost use Rattle.std.specs.Prelude.{◌≡◌};
ghost use Rattle.answer.specs.Left.{left};
ghost use Rattle.image.specs.Answer.{answered};
ghost use Rattle.capi.specs.Answer.{number_of};
ghost use Rattle.capi.specs.Images.{write_as, write_call, write_old_call, restored, read_call};

use crate::numbers::number;
use answer::{Refusal, sizes_verdict};
use image::RECORD_LENGTH;
use image_layout::{Form, fixed_part};

// Writes a machine's image in a form: its lengths are judged before the record's bytes.
fn write_in(
    form: Form,
    dropping: bool,
    registers: &[u32],
    memory: &[u8],
    bytes: &[u8; RECORD_LENGTH],
    buffer: &mut [u8],
) -> Result<(), Refusal>
    ensures { left (number_of (answered result)) buffer.new ≡ write_as form dropping registers.now memory.now bytes.now buffer.old }
{
    sizes_verdict(
        fixed_part(form),
        registers.len(),
        memory.len(),
        buffer.len(),
    )?;
    let machine = image::read_record(bytes)?;
    image::write_as(form, dropping, registers, memory, machine, buffer)
}

// Writes a machine's image.
pub fn korvammel_image_write(
    registers: &[u32],
    memory: &[u8],
    bytes: &[u8; RECORD_LENGTH],
    buffer: &mut [u8],
) -> u32
    ensures { left result buffer.new ≡ write_call registers.now memory.now bytes.now buffer.old }
{
    number(&write_in(Form::Newest, false, registers, memory, bytes, buffer))
}

// Writes a machine's image in the old form; any `drop` but 0 allows its counts of turns to be dropped.
pub fn korvammel_image_write_old(
    registers: &[u32],
    memory: &[u8],
    bytes: &[u8; RECORD_LENGTH],
    drop: u32,
    buffer: &mut [u8],
) -> u32
    ensures { left result buffer.new ≡ write_old_call registers.now memory.now bytes.now drop buffer.old }
{
    number(&write_in(Form::Old, drop != 0, registers, memory, bytes, buffer))
}

// Reads an image into registers, memory and machine record.
pub fn korvammel_image_read(
    image: &[u8],
    registers: &mut [u32],
    memory: &mut [u8],
    bytes: &mut [u8; RECORD_LENGTH],
) -> u32
    ensures { restored result registers.new memory.new bytes.new ≡ read_call image.now registers.old memory.old }
{
    let read = image::read(image, registers, memory);
    image::write_record(read.unwrap_or(run_record::zero()), bytes);
    number(&read)
}
