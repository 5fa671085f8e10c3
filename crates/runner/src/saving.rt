// The machine saved as an image, in the newest form.
ghost use Rattle.std.specs.Prelude.{◌≤◌, length};
ghost use Rattle.answer.specs.Refusal.{memory_bytes};

use crate::failure::{Failure, told};
use answer::BLOCK_BYTES;
use files::write_numbered_synced;
use image_layout::{Form, Shape};
use image_sizes::{LONGEST_IMAGE, image_size};
use machine::Machine;
use std::rt::Files;

// The stream of a machine to save, which the command opens.
const IMAGE_OUT: &str = "/dev/fd/4";

// Puts the image into a buffer of its length, and the buffer into the stream.
fn save_by(
    rt: &(impl Files + Eprint),
    registers: &[u32],
    memory: &[u8],
    machine: Machine,
    image: &mut [u8],
) -> Result<(), Failure> {
    image::write(registers, memory, machine, image)?;
    told(write_numbered_synced(rt, IMAGE_OUT, b"write the image", image))
}

// Saves the machine.
pub fn save(
    rt: &(impl Files + Eprint),
    registers: &[u32],
    memory: &[u8],
    machine: Machine,
) -> Result<(), Failure>
    requires { length memory.now ≤ memory_bytes }
{
    let mut image = [0u8; LONGEST_IMAGE];
    let shape = Shape {
        form: Form::Newest,
        blocks: (memory.len() / BLOCK_BYTES) as u16,
    };
    let size = image_size(shape);
    save_by(rt, registers, memory, machine, &mut image[..size])
}
