// Two runs, one after the other, as one.
ghost use Rattle.std.specs.Prelude.{◌≡◌};
ghost use Rattle.interpreter.specs.Choosing.{entries_to};
ghost use Rattle.machine.specs.Scheduler.{choice};
ghost use Rattle.trace.specs.Joining.{continued_run, continued};

use answer::Refusal;
use interpreter::Run;
use machine::Machine;

// How many entries are looked at to choose from a record.
#[tactic(auto, unfolding(machine::specs::Scheduler::choose))]
fn entries_to_next(machine: Machine) -> u64
    ensures { result ≡ entries_to (choice machine) }
{
    machine
        .choose()
        .choice
        .map_or(8, |next| next.distance as u64)
}

// What a run hands back that does what `first` did, and then what `second` did from the machine that `first` left. Both looked at the
// record between them, and the one run looks there once.
#[tactic(auto, unfolding(crate::specs::Joining::continued_run, crate::specs::Joining::less_once))]
pub fn joined(first: Run, second: Run) -> Run
    ensures { result ≡ continued_run first second }
{
    let again = entries_to_next(first.machine);
    let looks = first.looks.wrapping_add(second.looks);
    Run {
        stop: second.stop,
        issues: first.issues.wrapping_add(second.issues),
        looks: looks.wrapping_sub(again),
        machine: second.machine,
    }
}

// The same of what two calls answered: where either was refused, the second's answer.
#[tactic(auto, unfolding(crate::specs::Joining::continued))]
pub fn continued(first: Result<Run, Refusal>, second: Result<Run, Refusal>) -> Result<Run, Refusal>
    ensures { result ≡ continued first second }
{
    match (first, second) {
        (Ok(before), Ok(after)) => Ok(joined(before, after)),
        _ => second,
    }
}
