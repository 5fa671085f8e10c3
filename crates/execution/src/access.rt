// Loads and stores of registers.
ghost use Rattle.std.specs.Prelude.{◌≡◌, ◌<◌};
ghost use Rattle.execution.specs.Access.{load_into, store_from, load_lanes_into, store_lanes_from, access};
ghost use Rattle.execution.specs.Effect.{step, executed, passed};
ghost use Rattle.execution.specs.Registers.{InRegisters};

use crate::context::Context;
use crate::registers;
use answer::Reason;
use isa::{LoadOp, MemoryOp, StoreOp};
use machine::LANE_MASK;

#[tactic(auto, unfolding(crate::specs::Access::load_into))]
fn load(
    context: Context,
    regs: &mut [u32],
    memory: &[u8],
    op: LoadOp,
    register: u32,
    base: u32,
    offset: u32,
) -> Result<(), Reason>
    requires { InRegisters regs.old context.thread × (context.pc < 65536) × (register < 64) × (base < 64) }
    ensures { step (passed result) regs.new ≡ load_into context regs.old memory.now op register base offset }
{
    let from = registers::scalar(regs, context.thread, base);
    let x = memory::load(op, memory, from, offset)?;
    registers::set_scalar(regs, context.thread, register, x);
    registers::advance(regs, context.thread, context.pc);
    Ok(())
}

#[tactic(auto, unfolding(crate::specs::Access::store_from))]
fn store(
    context: Context,
    regs: &mut [u32],
    memory: &mut [u8],
    op: StoreOp,
    register: u32,
    base: u32,
    offset: u32,
) -> Result<(), Reason>
    requires { InRegisters regs.old context.thread × (context.pc < 65536) × (register < 64) × (base < 64) }
    ensures { executed (passed result) regs.new memory.new ≡ store_from context regs.old memory.old op register base offset }
{
    let from = registers::scalar(regs, context.thread, base);
    let x = registers::scalar(regs, context.thread, register);
    memory::store(op, memory, from, offset, x)?;
    registers::advance(regs, context.thread, context.pc);
    Ok(())
}

#[tactic(auto, unfolding(crate::specs::Access::load_lanes_into))]
fn load_lanes(
    context: Context,
    regs: &mut [u32],
    memory: &[u8],
    register: u32,
    base: u32,
    offset: u32,
) -> Result<(), Reason>
    requires { InRegisters regs.old context.thread × (context.pc < 65536) × (register < 64) × (base < 64) }
    ensures { step (passed result) regs.new ≡ load_lanes_into context regs.old memory.now register base offset }
{
    let from = registers::scalar(regs, context.thread, base);
    let lanes = memory::load_lanes(memory, from, offset)?;
    registers::set_lanes_on(regs, context.thread, register, lanes);
    registers::advance(regs, context.thread, context.pc);
    Ok(())
}

#[tactic(auto, unfolding(crate::specs::Access::store_lanes_from))]
fn store_lanes(
    context: Context,
    regs: &mut [u32],
    memory: &mut [u8],
    register: u32,
    base: u32,
    offset: u32,
) -> Result<(), Reason>
    requires { InRegisters regs.old context.thread × (context.pc < 65536) × (register < 64) × (base < 64) }
    ensures { executed (passed result) regs.new memory.new ≡ store_lanes_from context regs.old memory.old register base offset }
{
    let from = registers::scalar(regs, context.thread, base);
    let mask = registers::scalar(regs, context.thread, LANE_MASK);
    let v = registers::vector(regs, context.thread, register);
    memory::store_lanes(memory, from, offset, mask, v)?;
    registers::advance(regs, context.thread, context.pc);
    Ok(())
}

pub fn access(
    context: Context,
    regs: &mut [u32],
    memory: &mut [u8],
    op: MemoryOp,
    register: u32,
    base: u32,
    offset: u32,
) -> Result<(), Reason>
    requires { InRegisters regs.old context.thread × (context.pc < 65536) × (register < 64) × (base < 64) }
    ensures { executed (passed result) regs.new memory.new ≡ access context regs.old memory.old op register base offset }
{
    match op {
        MemoryOp::Load(o) => load(context, regs, memory, o, register, base, offset),
        MemoryOp::Store(o) => store(context, regs, memory, o, register, base, offset),
        MemoryOp::LoadVector => load_lanes(context, regs, memory, register, base, offset),
        MemoryOp::StoreVector => store_lanes(context, regs, memory, register, base, offset),
    }
}
