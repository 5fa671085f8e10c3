// One instruction of a thread.
ghost use Rattle.std.specs.Prelude.{◌≡◌, ◌<◌, ◌≤◌};
ghost use Rattle.answer.specs.Refusal.{program_words};
ghost use Rattle.isa.specs.Claims.{Ranged};
ghost use Rattle.execution.specs.Effect.{executed, fate_of};
ghost use Rattle.execution.specs.Issue.{execute, execute_word};
ghost use Rattle.execution.specs.Registers.{InRegisters};

use crate::context::Context;
use crate::effect::Effect;
use crate::{access, control, immediate, jump, operation, registers};
use answer::Reason;
use isa::{Instruction, Unreadable};

fn instruction(
    context: Context,
    regs: &mut [u32],
    memory: &mut [u8],
    i: Instruction,
) -> Result<Effect, Reason>
    requires { InRegisters regs.old context.thread × (context.words ≤ program_words) × (context.pc < 65536) × Ranged i }
    ensures { executed (fate_of result) regs.new memory.new ≡ execute context regs.old memory.old i }
{
    match i {
        Instruction::R { op, flags, d, a, b } => {
            operation::operate_r(regs, context.thread, op, flags, d, a, b);
            registers::advance(regs, context.thread, context.pc);
        }
        Instruction::I {
            op,
            flags,
            d,
            a,
            immediate,
        } => {
            operation::operate_i(regs, context.thread, op, flags, d, a, immediate);
            registers::advance(regs, context.thread, context.pc);
        }
        Instruction::Movei {
            op,
            flag,
            d,
            immediate,
        } => {
            immediate::move_immediate(regs, context.thread, op, flag == 1, d, immediate);
            registers::advance(regs, context.thread, context.pc);
        }
        Instruction::J {
            op,
            register,
            offset,
        } => jump::jump(context, regs, op, register, offset)?,
        Instruction::C { op, first, second } => {
            return control::control(context, regs, op, first, second);
        }
        Instruction::M {
            op,
            register,
            base,
            offset,
        } => access::access(context, regs, memory, op, register, base, offset)?,
    }
    Ok(Effect::Stays)
}

#[tactic(auto, unfolding(crate::specs::Issue::execute_word))]
pub fn word(context: Context, regs: &mut [u32], memory: &mut [u8], w: u32) -> Result<Effect, Reason>
    requires { InRegisters regs.old context.thread × (context.words ≤ program_words) × (context.pc < 65536) }
    ensures { executed (fate_of result) regs.new memory.new ≡ execute_word context regs.old memory.old w }
{
    match isa::read_word(w) {
        Ok(i) => instruction(context, regs, memory, i),
        Err(Unreadable::Undefined) => Err(Reason::UndefinedWord),
        Err(Unreadable::NotFitted) => Err(Reason::NotFittedWord),
    }
}
