// The machine record that an image holds.
ghost use Rattle.std.specs.Prelude.{◌+◌, ◌≤◌, ◌≡◌, length, take, drop};
ghost use Rattle.image_layout.specs.Join.{all_below};
ghost use Rattle.image_layout.specs.Layout.{record_kinds, thread_row, start_of};
ghost use Rattle.image.specs.Answer.{answered, given_if};
ghost use Rattle.image.specs.Fields.{thread_of};
ghost use Rattle.image.specs.Image.{fields_in, is_entry, entry_in, threads_in, machine_in, record_in};

use crate::bytes::word_at;
use crate::fields::ThreadFields;
use answer::Refusal;
use image_layout::{Form, Kind, Shape, first_body, record_size, row_of};
use machine::Machine;
use thread_entry::{Status, Thread};

// The entry whose numbers stand at a place. The old form has no count of turns, which then is 0. It stands apart: inlined into the loop
// below, it would stand eight times in the code.
#[inline(never)]
fn entry_at(form: Form, image: &[u8], at: usize) -> Result<Thread, Refusal>
    requires { at + (thread_row form).size ≤ length image.now }
    ensures { answered result ≡ thread_of (fields_in (take (thread_row form).size (drop at image.now))) }
{
    let turns = match form {
        Form::Newest => word_at(image, at + 4),
        Form::Old => 0,
    };
    Thread::try_from(ThreadFields {
        status: image[at],
        reason: image[at + 1],
        id: image[at + 2],
        count: image[at + 3],
        turns,
    })
}

// The eight entries, if all of them can be read.
fn entries_in(shape: Shape, image: &[u8]) -> Result<[Thread; 8], Refusal>
    requires { start_of shape record_kinds ≤ length image.now }
    ensures { answered result ≡ given_if (all_below 8 (λ t. is_entry (entry_in shape image.now t))) (threads_in shape image.now) }
{
    let size = record_size(row_of(shape, Kind::Ti));
    let mut at = first_body(shape, Kind::Ti);
    let mut threads = [Thread::new(Status::Idle, 0); 8];
    for thread in threads.iter_mut() {
        *thread = entry_at(shape.form, image, at)?;
        at += size;
    }
    Ok(threads)
}

// The machine record, if its numbers are in range and it is well formed.
pub fn record_in(shape: Shape, image: &[u8]) -> Result<Machine, Refusal>
    requires { start_of shape record_kinds ≤ length image.now }
    ensures { answered result ≡ given_if (record_in shape image.now) (machine_in shape image.now) }
{
    let at = first_body(shape, Kind::Hd);
    let machine = Machine {
        enabled: image[at + 1],
        last: image[at],
        threads: entries_in(shape, image)?,
    };
    if well_formedness::well_formed(machine) {
        Ok(machine)
    } else {
        Err(Refusal::Record)
    }
}
