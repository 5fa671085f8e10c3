// Moves of an immediate into a register.
ghost use Rattle.std.specs.Prelude.{◌≡◌, ◌<◌};
ghost use Rattle.isa.specs.Claims.{HalfWord};
ghost use Rattle.execution.specs.Immediate.{replaced, replaced_lanes, move_immediate};
ghost use Rattle.execution.specs.Registers.{InRegisters};

use crate::registers;
use isa::MoveiOp;
use std::array;

// What a move of n makes of a register that held `old`.
pub fn replace(op: MoveiOp, old: u32, n: u32) -> u32
    requires { HalfWord op n }
    ensures { result ≡ replaced op old n }
{
    match op {
        MoveiOp::Low => old / 65536 * 65536 + n,
        MoveiOp::High => n * 65536 + old % 65536,
        MoveiOp::Whole => n,
    }
}

fn replace_lanes(op: MoveiOp, old: [u32; 16], n: u32) -> [u32; 16]
    requires { HalfWord op n }
    ensures { result ≡ replaced_lanes op old n }
{
    array::from_fn(|j| replace(op, old[j], n))
}

#[tactic(auto, unfolding(crate::specs::Immediate::move_immediate))]
pub fn move_immediate(regs: &mut [u32], t: usize, op: MoveiOp, flag: bool, d: u32, n: u32)
    requires { InRegisters regs.old t × (d < 64) × HalfWord op n }
    ensures { regs.new ≡ move_immediate regs.old t op flag d n }
{
    if flag {
        let old = registers::vector(regs, t, d);
        registers::set_lanes_on(regs, t, d, replace_lanes(op, old, n));
    } else {
        let old = registers::scalar(regs, t, d);
        registers::set_scalar(regs, t, d, replace(op, old, n));
    }
}
