// Control instructions.
ghost use Rattle.std.specs.Prelude.{◌≡◌, ◌<◌};
ghost use Rattle.execution.specs.Control.{control_register, read_control, control};
ghost use Rattle.execution.specs.Effect.{step, passed, fate_of};
ghost use Rattle.execution.specs.Registers.{InRegisters};
ghost use Rattle.isa.specs.Found.{found};

use crate::context::Context;
use crate::effect::Effect;
use crate::registers;
use answer::Reason;
use isa::ControlOp;

// What a control register holds, where there is one of that number.
#[tactic(auto, unfolding(crate::specs::Control::control_register))]
fn control_register(context: Context, number: u32) -> Option<u32>
    requires { context.thread < 8 }
    ensures { found result ≡ control_register context number }
{
    match number {
        0 | 1 => Some(0),
        2 | 3 => Some(context.thread as u32),
        6 => Some(u32::from(context.enabled)),
        9 => Some(context.pc),
        14 => Some(8),
        16 => Some(context.turns),
        _ => None,
    }
}

#[tactic(auto, unfolding(crate::specs::Control::read_control))]
fn read_control(context: Context, regs: &mut [u32], first: u32, second: u32) -> Result<(), Reason>
    requires { InRegisters regs.old context.thread × (context.pc < 65536) × (first < 64) × (second < 64) }
    ensures { step (passed result) regs.new ≡ read_control context regs.old first second }
{
    let number = registers::scalar(regs, context.thread, second);
    let x = control_register(context, number).ok_or(Reason::NotFittedWord)?;
    registers::set_scalar(regs, context.thread, first, x);
    registers::advance(regs, context.thread, context.pc);
    Ok(())
}

pub fn control(
    context: Context,
    regs: &mut [u32],
    op: ControlOp,
    first: u32,
    second: u32,
) -> Result<Effect, Reason>
    requires { InRegisters regs.old context.thread × (context.pc < 65536) × (first < 64) × (second < 64) }
    ensures { step (fate_of result) regs.new ≡ control context regs.old op first second }
{
    match op {
        ControlOp::Barrier => {
            let id = registers::scalar(regs, context.thread, first);
            let count = registers::scalar(regs, context.thread, second);
            Ok(Effect::ReachesBarrier(id, count))
        }
        ControlOp::Readcr => {
            read_control(context, regs, first, second)?;
            Ok(Effect::Stays)
        }
        ControlOp::End => {
            registers::advance(regs, context.thread, context.pc);
            Ok(Effect::Ends)
        }
    }
}
