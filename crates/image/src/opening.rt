// The machine record alone, as the bytes that an image of the newest form opens with: written and read.
ghost use Rattle.std.specs.Prelude.{◌≡◌};
ghost use Rattle.image.specs.Opening.{record_bytes, judged, read_opening};

use crate::verdicts::judge_kinds;
use crate::writing::Saved;
use answer::Refusal;
use image_layout::{Form, RECORD_KINDS, Shape};
use machine::Machine;

// How many bytes a machine record has.
pub const RECORD_LENGTH: usize = 92;

// HD and TI are the same for every memory.
const NO_BLOCKS: Shape = Shape {
    form: Form::Newest,
    blocks: 0,
};

// A machine record is written, whether or not it is well formed: HD and TI, which hold no word of the register file and no byte of memory.
pub fn write_record(machine: Machine, buffer: &mut [u8; RECORD_LENGTH])
    ensures { buffer.new ≡ record_bytes machine }
{
    let saved = Saved {
        shape: NO_BLOCKS,
        registers: &[],
        memory: &[],
        machine,
    };
    saved.put_kinds(RECORD_KINDS, buffer);
}

// A machine record is read: what is accepted is well formed.
pub fn read_record(bytes: &[u8; RECORD_LENGTH]) -> Result<Machine, Refusal>
    ensures { judged result ≡ read_opening bytes.now }
{
    judge_kinds(NO_BLOCKS, RECORD_KINDS, bytes)
}
