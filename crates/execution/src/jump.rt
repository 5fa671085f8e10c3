// Jumps: the target is checked before a register changes.
ghost use Rattle.std.specs.Prelude.{◌≡◌, ◌<◌, ◌≤◌, if◌then◌else◌};
ghost use Rattle.answer.specs.Refusal.{program_words};
ghost use Rattle.execution.specs.Effect.{step, passed, next};
ghost use Rattle.execution.specs.Jump.{in_program, jump_to, jump_by, linked, jump};
ghost use Rattle.execution.specs.Registers.{InRegisters};

use crate::context::Context;
use crate::registers;
use answer::Reason;
use isa::JumpOp;
use machine::{LINK, PROGRAM_COUNTER};

// Whether a word of the program stands at an address.
pub fn in_program(words: usize, address: u32) -> bool
    requires { words ≤ program_words }
    ensures { result ≡ in_program words address }
{
    (address % 4 == 0) & ((address as usize) < 4 * words)
}

#[tactic(auto, unfolding(crate::specs::Jump::jump_to))]
fn jump_to(context: Context, regs: &mut [u32], address: u32) -> Result<(), Reason>
    requires { InRegisters regs.old context.thread × (context.words ≤ program_words) }
    ensures { step (passed result) regs.new ≡ jump_to context regs.old regs.old address }
{
    if !in_program(context.words, address) {
        return Err(Reason::OutsideProgram);
    }
    registers::set_scalar(regs, context.thread, PROGRAM_COUNTER, address);
    Ok(())
}

// The sum wraps: a negative target comes out past the end of every program.
#[tactic(auto, using(crate::proofs::Targets::wrapped))]
fn jump_by(context: Context, regs: &mut [u32], offset: u32) -> Result<(), Reason>
    requires { InRegisters regs.old context.thread × (context.words ≤ program_words) × (context.pc < 65536) }
    ensures { step (passed result) regs.new ≡ jump_by context regs.old regs.old offset }
{
    jump_to(context, regs, context.pc.wrapping_add(offset))
}

fn jump_and_link(context: Context, regs: &mut [u32], offset: u32) -> Result<(), Reason>
    requires { InRegisters regs.old context.thread × (context.words ≤ program_words) × (context.pc < 65536) }
    ensures { step (passed result) regs.new ≡ jump_by context regs.old (linked context regs.old) offset }
{
    let target = context.pc.wrapping_add(offset);
    if !in_program(context.words, target) {
        return Err(Reason::OutsideProgram);
    }
    registers::set_scalar(regs, context.thread, LINK, context.pc + 4);
    registers::set_scalar(regs, context.thread, PROGRAM_COUNTER, target);
    Ok(())
}

// A branch, taken or not.
fn branch(context: Context, regs: &mut [u32], taken: bool, offset: u32) -> Result<(), Reason>
    requires { InRegisters regs.old context.thread × (context.words ≤ program_words) × (context.pc < 65536) }
    ensures { step (passed result) regs.new ≡ (if taken then jump_by context regs.old regs.old offset else next context regs.old) }
{
    if taken {
        return jump_by(context, regs, offset);
    }
    registers::advance(regs, context.thread, context.pc);
    Ok(())
}

pub fn jump(
    context: Context,
    regs: &mut [u32],
    op: JumpOp,
    register: u32,
    offset: u32,
) -> Result<(), Reason>
    requires { InRegisters regs.old context.thread × (context.words ≤ program_words) × (context.pc < 65536) × (register < 64) }
    ensures { step (passed result) regs.new ≡ jump context regs.old op register offset }
{
    match op {
        JumpOp::Jmp => jump_by(context, regs, offset),
        JumpOp::Jmpsr => jump_and_link(context, regs, offset),
        JumpOp::Jret => {
            let address = registers::scalar(regs, context.thread, LINK);
            jump_to(context, regs, address)
        }
        JumpOp::Beqz => {
            let x = registers::scalar(regs, context.thread, register);
            branch(context, regs, x == 0, offset)
        }
        JumpOp::Bnez => {
            let x = registers::scalar(regs, context.thread, register);
            branch(context, regs, x != 0, offset)
        }
    }
}
