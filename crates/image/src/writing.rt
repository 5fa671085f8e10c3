// A machine is written as an image.
ghost use Rattle.std.specs.Prelude.{◌+◌, ◌<◌, ◌≤◌, ◌≡◌, length};
ghost use Rattle.machine.specs.State.{state};
ghost use Rattle.image_layout.specs.Join.{Grown};
ghost use Rattle.image_layout.specs.Layout.{thread_row, row_of, record_size, extent_of, record_of, section_of, laid_up_to, start_of};
ghost use Rattle.image.specs.Calls.{written, write_as, write, write_old};
ghost use Rattle.image.specs.Saved.{state_of};
ghost use Rattle.image.specs.Image.{Suits, SuitsUpTo, status_bytes, field_bytes, body_of};

use crate::bytes::{copy_sixteens, put_word, put_words};
use crate::fields::ThreadFields;
use crate::heads::put_head;
use crate::verdicts::judge_record;
use answer::{Refusal, sizes_verdict};
use image_layout::{Form, KINDS, Kind, Shape, count_at, fixed_part, kind_at, row_of};
use machine::Machine;

// The numbers of an entry's status stored from a place on.
fn put_status(fields: ThreadFields, buffer: &mut [u8], at: usize)
    requires { at + 4 ≤ length buffer.old }
    ensures { Grown buffer.old buffer.new at (at + 4) (status_bytes fields) }
{
    let status = [fields.status, fields.reason, fields.id, fields.count];
    buffer[at..at + 4].copy_from_slice(&status);
}

// An entry's numbers, as far as a form has them, stored from a place on; the next place.
fn put_fields(form: Form, fields: ThreadFields, buffer: &mut [u8], at: usize) -> usize
    requires { at + (thread_row form).size ≤ length buffer.old }
    ensures { Grown buffer.old buffer.new at result (field_bytes form fields) }
{
    put_status(fields, buffer, at);
    match form {
        Form::Newest => {
            put_word(fields.turns, buffer, at + 4);
            at + 8
        }
        Form::Old => at + 4,
    }
}

// A machine to save, and the shape of its image. That they suit is no invariant: `write_record` makes one with no registers and no memory.
#[derive(Clone, Copy)]
pub struct Saved<'a> {
    pub shape: Shape,
    pub registers: &'a [u32],
    pub memory: &'a [u8],
    pub machine: Machine,
}

impl Saved<'_> {
    // What stands behind the place numbers of record i, stored from a place on; the next place.
    fn put_body(&self, kind: Kind, i: usize, buffer: &mut [u8], at: usize) -> usize
        requires { Suits self.now.shape kind self.now.registers.now self.now.memory.now × (i < (row_of self.now.shape kind).count) × (at + (row_of self.now.shape kind).size ≤ length buffer.old) }
        ensures { Grown buffer.old buffer.new at result (body_of self.now.shape.form (state_of self.now) kind i) }
    {
        match kind {
            Kind::Hd => {
                buffer[at] = self.machine.last;
                buffer[at + 1] = self.machine.enabled;
                at + 2
            }
            Kind::Ti => {
                let fields = ThreadFields::from(self.machine.threads[i]);
                put_fields(self.shape.form, fields, buffer, at)
            }
            Kind::Sr => {
                put_words(self.registers, 64 * i, 16, buffer, at);
                at + 256
            }
            Kind::Vr => {
                put_words(self.registers, 512 + 16 * i, 4, buffer, at);
                at + 64
            }
            Kind::Mm => {
                copy_sixteens(self.memory, 64 * i, 4, buffer, at);
                at + 64
            }
        }
    }

    // Record i of a kind stored from a place on; the next place.
    fn put_record(&self, kind: Kind, i: usize, buffer: &mut [u8], at: usize) -> usize
        requires { Suits self.now.shape kind self.now.registers.now self.now.memory.now × (i < (row_of self.now.shape kind).count) × (at + record_size (row_of self.now.shape kind) ≤ length buffer.old) }
        ensures { Grown buffer.old buffer.new at result (record_of (row_of self.now.shape kind) (body_of self.now.shape.form (state_of self.now) kind) i) }
    {
        let row = row_of(self.shape, kind);
        let next = put_head(row, i, buffer, at);
        self.put_body(kind, i, buffer, next)
    }

    // Every record of a kind, of which there are so many, stored from a place on; the next place. By number: each record says its own.
    fn put_section(&self, kind: Kind, count: usize, buffer: &mut [u8], at: usize) -> usize
        requires { Suits self.now.shape kind self.now.registers.now self.now.memory.now × (count ≡ (row_of self.now.shape kind).count) × (at + extent_of (row_of self.now.shape kind) ≤ length buffer.old) }
        ensures { Grown buffer.old buffer.new at result (section_of (row_of self.now.shape kind) (body_of self.now.shape.form (state_of self.now) kind)) }
    {
        let mut next = at;
        for i in 0..count {
            next = self.put_record(kind, i, buffer, next);
        }
        next
    }

    // The records of the first n kinds. By position: `count_at` says why their counts are looked up by it.
    pub fn put_kinds(&self, n: usize, buffer: &mut [u8])
        requires { SuitsUpTo n self.now.shape self.now.registers.now self.now.memory.now × (start_of self.now.shape n ≡ length buffer.old) }
        ensures { buffer.new ≡ laid_up_to n self.now.shape (body_of self.now.shape.form (state_of self.now)) }
    {
        let mut next: usize = 0;
        for position in 0..n {
            let count = count_at(self.shape, position);
            next = self.put_section(kind_at(position), count, buffer, next);
        }
    }
}

// The image of a machine in a form is written into a buffer of exactly its length; dropping allows the old form to lose counts.
pub fn write_as(
    form: Form,
    dropping: bool,
    registers: &[u32],
    memory: &[u8],
    machine: Machine,
    buffer: &mut [u8],
) -> Result<(), Refusal>
    ensures { written result buffer.new ≡ write_as form dropping (state machine registers.now memory.now) buffer.old }
{
    sizes_verdict(
        fixed_part(form),
        registers.len(),
        memory.len(),
        buffer.len(),
    )?;
    judge_record(form, dropping, machine)?;
    let blocks = (memory.len() / 64) as u16;
    let saved = Saved {
        shape: Shape { form, blocks },
        registers,
        memory,
        machine,
    };
    saved.put_kinds(KINDS, buffer);
    Ok(())
}

// The image of a machine is written, in the newest form.
pub fn write(
    registers: &[u32],
    memory: &[u8],
    machine: Machine,
    buffer: &mut [u8],
) -> Result<(), Refusal>
    ensures { written result buffer.new ≡ write (state machine registers.now memory.now) buffer.old }
{
    write_as(Form::Newest, false, registers, memory, machine, buffer)
}

// The image of a machine is written in the old form, without its counts of turns: they are 0, or dropping them is allowed.
pub fn write_old(
    registers: &[u32],
    memory: &[u8],
    machine: Machine,
    dropping: bool,
    buffer: &mut [u8],
) -> Result<(), Refusal>
    ensures { written result buffer.new ≡ write_old dropping (state machine registers.now memory.now) buffer.old }
{
    write_as(Form::Old, dropping, registers, memory, machine, buffer)
}
