// A program is run.
ghost use Rattle.std.specs.Prelude.{◌+◌, ◌*◌, ◌^◌, ◌≤◌, ◌<◌, cond, ◌≡◌, length};
ghost use Rattle.answer.specs.Refusal.{number_of, program_words, register_words};
ghost use Rattle.machine.specs.Rounds.{after_rounds};
ghost use Rattle.machine.specs.State.{state, recounted};
ghost use Rattle.interpreter.specs.Answer.{ending_of};
ghost use Rattle.interpreter.specs.Choosing.{idle_ending};
ghost use Rattle.interpreter.specs.Refusal.{record_number, run_number};
ghost use Rattle.interpreter.specs.Run.{run_outcome, outcome, accepted_run, run};
ghost use Rattle.interpreter.specs.Stretch.{Repeats, Continues, Stretched};

use crate::outcome::{Run, Stop};
use answer::{Refusal, first_refusal, lengths_verdict};
use machine::Machine;
use run_record::{some_waits, with_last};
use thread_entry::many_more;
use turn_counts::{count_rounds, with_turns};
use well_formedness::well_formed;

// Refuses a machine record that is not well formed.
#[tactic(auto, unfolding(crate::specs::Refusal::record_number, answer::specs::Refusal::first_that_applies))]
fn record_verdict(machine: Machine) -> Result<(), Refusal>
    ensures { number_of result ≡ record_number machine }
{
    if well_formed(machine) {
        Ok(())
    } else {
        Err(Refusal::Record)
    }
}

// Refuses a run: the words of its program and register file, the bytes of its memory, or its record.
fn run_verdict(words: usize, regs: usize, bytes: usize, machine: Machine) -> Result<(), Refusal>
    ensures { number_of result ≡ run_number words regs bytes machine }
{
    first_refusal(lengths_verdict(words, regs, bytes), record_verdict(machine))
}

// How a run ends where no thread is running: whether one waits.
#[tactic(auto, unfolding(crate::specs::Choosing::idle_ending))]
fn idle_stop(machine: Machine) -> Stop
    ensures { ending_of result ≡ idle_ending machine }
{
    if some_waits(machine) {
        Stop::Stuck
    } else {
        Stop::Stopped
    }
}

// Issues of the fast path in a row: the thread issued last, how many issues are left in the budget, how many entries "last" has passed, and
// whether the last of them is deferred: chosen and counted, and still to be made, by the slow path. A flag beside them: all three are there in
// both cases, and an enum that holds them twice is no plainer.
#[derive(Clone, Copy)]
pub struct FastIssues {
    pub last: usize,
    pub left: u32,
    pub passed: u64,
    pub deferred: bool,
}

// Program, registers and memory go one by one from here down, as `run` is given them and both paths take them: a struct of them would be
// taken apart again at each call, which is no plainer.

// Issues of one thread in a row, by the fast path: one where others may be running too, else up to the first whose word is left to the slow
// path. That one is made by the caller, so that the compiler has no call and no record in this loop.
fn make_thread_issues(
    program: &[u32],
    registers: &mut [u32],
    memory: &mut [u8],
    thread: usize,
    distance: usize,
    others: bool,
    mut left: u32,
    mut passed: u64,
) -> FastIssues
    requires { (0 < left) × (distance ≤ 8) × (passed + 8 * left < 2 ^ 64) }
    ensures { Repeats program.now thread distance others left passed registers.old memory.old result registers.new
        memory.new }
{
    loop {
        passed += distance as u64;
        left -= 1;
        if !fast_path::try_word(program, registers, memory, thread) {
            return FastIssues {
                last: thread,
                left,
                passed,
                deferred: true,
            };
        }
        if (left == 0) | others {
            return FastIssues {
                last: thread,
                left,
                passed,
                deferred: false,
            };
        }
    }
}

// Issues up to the first whose word is left to the slow path. Nothing of the record changes but "last", so that the compiler finds the
// running threads once and not for every issue. Where the thread chosen was "last" already the record stays the same, and so does the
// choice.
fn make_fast_issues(
    program: &[u32],
    registers: &mut [u32],
    memory: &mut [u8],
    machine: Machine,
    last: usize,
    left: u32,
    passed: u64,
) -> FastIssues
    requires { (length program.now ≤ program_words) × (length registers.old ≡ register_words) × (last < 8) × (passed + 8 * left < 2 ^ 64) }
    ensures { (result.last < 8) × (result.left + cond result.deferred 1 0 ≤ left)
        × Continues program.now machine left passed last registers.old memory.old result registers.new
        memory.new }
{
    let mut fast = FastIssues {
        last,
        left,
        passed,
        deferred: false,
    };
    loop {
        if fast.deferred | (fast.left == 0) {
            return fast;
        }
        let Some(next) = with_last(machine, fast.last as u8).choose().choice else {
            return fast;
        };
        fast = make_thread_issues(
            program,
            registers,
            memory,
            next.thread,
            next.distance,
            next.thread != fast.last,
            fast.left,
            fast.passed,
        );
    }
}

// Issues in a row: the record that they reach, but for its counts of turns, how many issues are left in the budget, how many entries
// "last" has passed, how many were looked at, and how the run ends, if nothing more is issued: the look that tells so counts too. It does
// not end where the last issue changed a status.
#[derive(Clone, Copy)]
pub struct Stretch {
    pub machine: Machine,
    pub left: u32,
    pub passed: u64,
    pub looks: u64,
    pub stop: Option<Stop>,
}

// Issues up to the first that changes a status. Nothing is counted for an issue: every round of eight entries is one turn of each running
// thread.
fn make_stretch(
    program: &[u32],
    registers: &mut [u32],
    memory: &mut [u8],
    machine: Machine,
    turns: &[u32; 8],
    mut left: u32,
) -> Stretch
    requires { (length program.now ≤ program_words) × (length registers.old ≡ register_words) × (length turns.now ≡ 8) × (machine.last < 8) }
    ensures { Stretched program.now left
        (recounted (state machine registers.old memory.old) turns.now) result
        (recounted (state result.machine registers.new memory.new) (after_rounds machine result.passed turns.now))
        × (result.machine.last < 8) }
{
    let mut passed: u64 = 0;
    // below 8 already: said again for the compiler
    let mut last = (machine.last % 8) as usize;
    loop {
        let fast = make_fast_issues(program, registers, memory, machine, last, left, passed);
        left = fast.left;
        last = fast.last;
        passed = fast.passed;
        let at = with_last(machine, last as u8);
        if !fast.deferred {
            return match at.choose().choice {
                None => Stretch {
                    machine: at,
                    left,
                    passed,
                    looks: passed + 8,
                    stop: Some(idle_stop(at)),
                },
                Some(next) => Stretch {
                    machine: at,
                    left,
                    passed,
                    looks: passed + next.distance as u64,
                    stop: Some(Stop::Spent),
                },
            };
        }
        let rounds = (passed - 1) / 8;
        let had = many_more(turns[last], rounds);
        let issued = execution::issue(program, registers, memory, at, last, had);
        if issued.changed {
            return Stretch {
                machine: issued.machine,
                left,
                passed,
                looks: passed,
                stop: None,
            };
        }
    }
}

// The issues of a run that is not refused.
fn make_issues(
    program: &[u32],
    registers: &mut [u32],
    memory: &mut [u8],
    mut machine: Machine,
    budget: u32,
) -> Run
    requires { (length program.now ≤ program_words) × (length registers.old ≡ register_words) × (machine.last < 8) }
    ensures { run_outcome result registers.new memory.new ≡ accepted_run program.now budget (state machine registers.old memory.old) }
{
    let mut left = budget;
    let mut looks: u64 = 0;
    let mut turns = turn_counts::turns(machine);
    loop {
        // lent as a copy, so that the compiler need not keep the counts themselves in memory
        let counted = turns;
        let stretch = make_stretch(program, registers, memory, machine, &counted, left);
        // by a local: the check covers no call whose result is laid in an array that is lent
        let rounds = count_rounds(machine, turns, stretch.passed);
        turns = rounds;
        machine = stretch.machine;
        left = stretch.left;
        looks += stretch.looks;
        if let Some(stop) = stretch.stop {
            return Run {
                stop,
                issues: budget - left,
                looks,
                machine: with_turns(machine, turns),
            };
        }
    }
}

// A program is run until it stops, is stuck, or has spent its budget of issues. A refusal changes nothing.
pub fn run(
    program: &[u32],
    registers: &mut [u32],
    memory: &mut [u8],
    machine: Machine,
    budget: u32,
) -> Result<Run, Refusal>
    ensures { outcome result machine registers.new memory.new ≡ run program.now budget (state machine registers.old memory.old) }
{
    run_verdict(program.len(), registers.len(), memory.len(), machine)?;
    Ok(make_issues(program, registers, memory, machine, budget))
}
