// A machine is read from an image. Shape and image go one by one: contracts speak of each by itself.
ghost use Rattle.std.specs.Prelude.{◌+◌, ◌*◌, ◌≤◌, ◌≡◌, length};
ghost use Rattle.answer.specs.Refusal.{register_words};
ghost use Rattle.image_layout.specs.Join.{Grown};
ghost use Rattle.image_layout.specs.Layout.{row_of, kinds, start_of};
ghost use Rattle.image.specs.Calls.{restored, read_by, read};
ghost use Rattle.image.specs.Image.{Lengths, words_in, registers_in, memory_in};
ghost use Rattle.image.specs.Refusal.{records_number};

use crate::bytes::{copy_sixteens, take_words};
use crate::verdicts::judge_kinds;
use answer::{Refusal, sizes_verdict};
use image_layout::{KINDS, Kind, Shape, first_body, fixed_part, form_of, record_size, row_of};
use machine::Machine;

// The words of every record of a kind, n times four in each, stored from a place on. Two places go on by different steps, and a zip of
// chunks of both is no plainer.
fn take_bodies(shape: Shape, kind: Kind, n: usize, image: &[u8], registers: &mut [u32], from: usize)
    requires { (start_of shape kinds ≤ length image.now) × ((row_of shape kind).size ≡ 16 * n) × (from + 4 * n * (row_of shape kind).count ≤ length registers.old) }
    ensures { Grown registers.old registers.new from (from + 4 * n * (row_of shape kind).count) (words_in shape image.now kind (4 * n)) }
{
    let row = row_of(shape, kind);
    let size = record_size(row);
    let mut at = first_body(shape, kind);
    let mut next = from;
    for i in 0..row.count {
        take_words(image, at, n, registers, next);
        at += size;
        next += 4 * n;
    }
}

// The register file: SR holds its first 512 words, VR the rest.
fn take_registers(shape: Shape, image: &[u8], registers: &mut [u32])
    requires { (start_of shape kinds ≤ length image.now) × (length registers.old ≡ register_words) }
    ensures { registers.new ≡ registers_in shape image.now }
{
    take_bodies(shape, Kind::Sr, 16, image, registers, 0);
    take_bodies(shape, Kind::Vr, 4, image, registers, 512);
}

// The memory. By places, as above.
fn take_memory(shape: Shape, image: &[u8], memory: &mut [u8])
    requires { (start_of shape kinds ≤ length image.now) × (length memory.old ≡ 64 * shape.blocks) }
    ensures { memory.new ≡ memory_in shape image.now }
{
    let row = row_of(shape, Kind::Mm);
    let size = record_size(row);
    let mut at = first_body(shape, Kind::Mm);
    let mut next: usize = 0;
    for i in 0..row.count {
        copy_sixteens(image, at, 4, memory, next);
        at += size;
        next += 64;
    }
}

// The machine that an image of the right length holds is restored: its registers and memory into lent ones.
fn read_sized(
    shape: Shape,
    image: &[u8],
    registers: &mut [u32],
    memory: &mut [u8],
) -> Result<Machine, Refusal>
    requires { Lengths shape registers.old memory.old × (start_of shape kinds ≤ length image.now) }
    ensures { restored result registers.new memory.new ≡ read_by (records_number shape image.now) shape image.now registers.old memory.old }
{
    let machine = judge_kinds(shape, KINDS, image)?;
    take_registers(shape, image, registers);
    take_memory(shape, image, memory);
    Ok(machine)
}

// The machine that an image holds, in the form that its length says, is restored, if the lengths are right.
pub fn read(image: &[u8], registers: &mut [u32], memory: &mut [u8]) -> Result<Machine, Refusal>
    ensures { restored result registers.new memory.new ≡ read image.now registers.old memory.old }
{
    let form = form_of(image.len());
    sizes_verdict(fixed_part(form), registers.len(), memory.len(), image.len())?;
    let blocks = (memory.len() / 64) as u16;
    read_sized(Shape { form, blocks }, image, registers, memory)
}
