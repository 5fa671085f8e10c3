// What the calls are refused for.
ghost use Rattle.std.specs.Prelude.{◌≤◌, ◌≡◌, length};
ghost use Rattle.answer.specs.Refusal.{number_of, refused_or};
ghost use Rattle.machine.specs.Machine.{zeroed};
ghost use Rattle.image_layout.specs.Layout.{record_kinds, start_of, heads_up_to};
ghost use Rattle.image.specs.Image.{machine_in, record_in};
ghost use Rattle.image.specs.Opening.{opened, judged};
ghost use Rattle.image.specs.Refusal.{no_counts, loses_counts, record_number, content_number};

use crate::entries::record_in;
use crate::heads::kinds_stand;
use answer::Refusal;
use image_layout::{Form, Shape};
use machine::Machine;

// The machine record that bytes hold, if the marks and place numbers of their first n kinds stand.
pub fn judge_kinds(shape: Shape, n: usize, image: &[u8]) -> Result<Machine, Refusal>
    requires { (record_kinds ≤ n) × (start_of shape n ≤ length image.now) }
    ensures { judged result ≡ opened (content_number (heads_up_to n shape image.now) (record_in shape image.now)) (refused_or (content_number (heads_up_to n shape image.now) (record_in shape image.now)) (λ n. zeroed) (machine_in shape image.now)) }
{
    if !kinds_stand(shape, n, image) {
        return Err(Refusal::Image);
    }
    record_in(shape, image)
}

// Whether every count of turns is 0.
fn no_counts(machine: Machine) -> bool
    ensures { result ≡ no_counts machine }
{
    machine.threads.iter().all(|thread| thread.turns == 0)
}

// Whether a form loses counts that may not be dropped.
fn loses_counts(form: Form, dropping: bool, machine: Machine) -> bool
    ensures { result ≡ loses_counts form dropping machine }
{
    match form {
        Form::Newest => false,
        Form::Old => !dropping & !no_counts(machine),
    }
}

// Refuses a record that is to be written in a form, if it may not be.
pub fn judge_record(form: Form, dropping: bool, machine: Machine) -> Result<(), Refusal>
    ensures { number_of result ≡ record_number form dropping machine }
{
    if !well_formedness::well_formed(machine) {
        return Err(Refusal::Record);
    }
    if loses_counts(form, dropping, machine) {
        return Err(Refusal::CountsLost);
    }
    Ok(())
}
