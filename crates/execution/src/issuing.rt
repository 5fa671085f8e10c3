// One issue of a thread.
ghost use Rattle.std.specs.Prelude.{◌≡◌, ◌<◌, ◌≤◌, length};
ghost use Rattle.answer.specs.Refusal.{program_words};
ghost use Rattle.machine.specs.Barrier.{reach_barrier};
ghost use Rattle.execution.specs.Effect.{fate_of};
ghost use Rattle.execution.specs.Issue.{after_barrier, fits, perform, perform_sets_status, issue, issue_sets_status, Settles};
ghost use Rattle.execution.specs.Registers.{InRegisters};
ghost use Rattle.machine.specs.State.{state};

use crate::context::Context;
use crate::effect::Effect;
use crate::{execute, jump, registers};
use answer::{PROGRAM_WORDS, REGISTER_WORDS, Reason};
use machine::{Machine, PROGRAM_COUNTER};

// Whether the lengths and the thread are such as a run comes to.
pub fn fits(words: usize, regs: usize, thread: usize) -> bool
    ensures { result ≡ fits words regs thread }
{
    (words <= PROGRAM_WORDS) & (regs == REGISTER_WORDS) & (thread < 8)
}

// The thread at a barrier: s63 moves on unless it traps.
fn reach_barrier(
    context: Context,
    registers: &mut [u32],
    machine: Machine,
    id: u32,
    second: u32,
) -> Machine
    requires { InRegisters registers.old context.thread × (context.pc < 65536) }
    ensures { (result ≡ (reach_barrier machine context.thread id second).machine)
        × (registers.new ≡ after_barrier context registers.old (reach_barrier machine context.thread id second)) }
{
    let met = machine.reach_barrier(context.thread, id, second);
    if !met.trapped {
        registers::advance(registers, context.thread, context.pc);
    }
    met.machine
}

// The record after an issue, and whether a status in it was set: by a trap, an end or a barrier. A flag beside the record, which is there in
// both cases: an enum that holds it twice is no plainer.
#[derive(Clone, Copy, Debug, PartialEq, Eq)]
pub struct Issued {
    pub machine: Machine,
    pub changed: bool,
}

// What becomes of the record.
fn settle(
    context: Context,
    registers: &mut [u32],
    machine: Machine,
    outcome: Result<Effect, Reason>,
) -> Issued
    requires { InRegisters registers.old context.thread × (context.pc < 65536) }
    ensures { Settles machine context registers.old (fate_of outcome) result registers.new }
{
    match outcome {
        Ok(Effect::Stays) => Issued {
            machine,
            changed: false,
        },
        Ok(Effect::Ends) => Issued {
            machine: machine.end(context.thread),
            changed: true,
        },
        Ok(Effect::ReachesBarrier(id, second)) => Issued {
            machine: reach_barrier(context, registers, machine, id, second),
            changed: true,
        },
        Err(reason) => Issued {
            machine: machine.trap(context.thread, reason.number()),
            changed: true,
        },
    }
}

// The issue of a thread that is "last" already.
fn perform(
    program: &[u32],
    registers: &mut [u32],
    memory: &mut [u8],
    machine: Machine,
    t: usize,
    turns: u32,
) -> Issued
    requires { InRegisters registers.old t × (length program.now ≤ program_words) }
    ensures { (state result.machine registers.new memory.new
        ≡ perform program.now (state machine registers.old memory.old) t turns)
        × (result.changed
        ≡ perform_sets_status program.now (state machine registers.old memory.old) t turns) }
{
    let words = program.len();
    let pc = registers::scalar(registers, t, PROGRAM_COUNTER);
    if !jump::in_program(words, pc) {
        return Issued {
            machine: machine.trap(t, Reason::OutsideProgram.number()),
            changed: true,
        };
    }
    let w = program[(pc / 4) as usize];
    let context = Context {
        thread: t,
        pc,
        enabled: machine.enabled,
        words,
        turns,
    };
    let outcome = execute::word(context, registers, memory, w);
    settle(context, registers, machine, outcome)
}

// The same, for any lengths and any thread number: it neither makes the thread "last" nor counts its turn, and is told how many the
// thread has had before, whatever counts the record holds.
#[tactic(auto, unfolding(crate::specs::Issue::issue, crate::specs::Issue::issue_sets_status))]
pub fn issue(
    program: &[u32],
    registers: &mut [u32],
    memory: &mut [u8],
    machine: Machine,
    thread: usize,
    turns: u32,
) -> Issued
    ensures { (state result.machine registers.new memory.new
        ≡ issue program.now (state machine registers.old memory.old) thread turns)
        × (result.changed
        ≡ issue_sets_status program.now (state machine registers.old memory.old) thread turns) }
{
    if fits(program.len(), registers.len(), thread) {
        return perform(program, registers, memory, machine, thread, turns);
    }
    Issued {
        machine,
        changed: false,
    }
}
