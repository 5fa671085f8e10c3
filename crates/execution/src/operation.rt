// The operations of R and I: register d from operands a and b.
ghost use Rattle.std.specs.Prelude.{◌≡◌, ◌<◌};
ghost use Rattle.execution.specs.Operand.{Named};
ghost use Rattle.execution.specs.Operation.{binary_into, unary_into, compare_into, shuffle_into, get_lane_into, operate, operate_r, operate_i};
ghost use Rattle.execution.specs.Registers.{InRegisters};

use crate::operand::Source;
use crate::{operand, registers};
use isa::{BinaryOp, CompareOp, Operation, UnaryOp};
use machine::LANE_MASK;

#[tactic(auto, unfolding(crate::specs::Operation::binary_into, crate::specs::Registers::with_lanes_on))]
fn binary(regs: &mut [u32], t: usize, op: BinaryOp, flag: bool, d: u32, a: Source, b: Source)
    requires { InRegisters regs.old t × (d < 64) × Named a × Named b }
    ensures { regs.new ≡ binary_into regs.old t op flag d a b }
{
    if flag {
        let x = a.lanes(regs, t);
        let y = b.lanes(regs, t);
        let mask = registers::scalar(regs, t, LANE_MASK);
        let old = registers::vector(regs, t, d);
        registers::set_vector(regs, t, d, vector::binary_masked(op, mask, x, y, old));
    } else {
        registers::set_scalar(regs, t, d, alu::binary(op, a.word(), b.word()));
    }
}

#[tactic(auto, unfolding(crate::specs::Operation::unary_into, crate::specs::Registers::with_lanes_on))]
fn unary(regs: &mut [u32], t: usize, op: UnaryOp, flag: bool, d: u32, a: Source)
    requires { InRegisters regs.old t × (d < 64) × Named a }
    ensures { regs.new ≡ unary_into regs.old t op flag d a }
{
    if flag {
        let x = a.lanes(regs, t);
        let mask = registers::scalar(regs, t, LANE_MASK);
        let old = registers::vector(regs, t, d);
        registers::set_vector(regs, t, d, vector::unary_masked(op, mask, x, old));
    } else {
        registers::set_scalar(regs, t, d, alu::unary(op, a.word()));
    }
}

#[tactic(auto, unfolding(crate::specs::Operation::compare_into))]
fn compare(regs: &mut [u32], t: usize, op: CompareOp, d: u32, a: Source, b: Source)
    requires { InRegisters regs.old t × (d < 64) × Named a × Named b }
    ensures { regs.new ≡ compare_into regs.old t op d a b }
{
    if a.is_vector() | b.is_vector() {
        let x = a.lanes(regs, t);
        let y = b.lanes(regs, t);
        let mask = registers::scalar(regs, t, LANE_MASK);
        registers::set_scalar(regs, t, d, compares::compare_lanes(op, mask, x, y));
    } else {
        let holds = ordering::compare(op, a.word(), b.word());
        registers::set_scalar(regs, t, d, u32::from(holds));
    }
}

#[tactic(auto, unfolding(crate::specs::Operation::shuffle_into))]
fn shuffle(regs: &mut [u32], t: usize, d: u32, a: Source, b: Source)
    requires { InRegisters regs.old t × (d < 64) × Named a × Named b }
    ensures { regs.new ≡ shuffle_into regs.old t d a b }
{
    let x = a.lanes(regs, t);
    let y = b.lanes(regs, t);
    registers::set_lanes_on(regs, t, d, vector::shuffle(x, y));
}

#[tactic(auto, unfolding(crate::specs::Operation::get_lane_into))]
fn get_lane(regs: &mut [u32], t: usize, d: u32, a: Source, b: Source)
    requires { InRegisters regs.old t × (d < 64) × Named a }
    ensures { regs.new ≡ get_lane_into regs.old t d a b }
{
    let x = a.lanes(regs, t);
    registers::set_scalar(regs, t, d, x[(b.word() % 16) as usize]);
}

fn operate(regs: &mut [u32], t: usize, op: Operation, flag: bool, d: u32, a: Source, b: Source)
    requires { InRegisters regs.old t × (d < 64) × Named a × Named b }
    ensures { regs.new ≡ operate regs.old t op flag d a b }
{
    match op {
        Operation::Binary(o) => binary(regs, t, o, flag, d, a, b),
        Operation::Unary(o) => unary(regs, t, o, flag, d, a),
        Operation::Compare(o) => compare(regs, t, o, d, a, b),
        Operation::Shuffle => shuffle(regs, t, d, a, b),
        Operation::GetLane => get_lane(regs, t, d, a, b),
    }
}

#[tactic(auto, unfolding(crate::specs::Operation::operate_r))]
pub fn operate_r(regs: &mut [u32], t: usize, op: Operation, flags: u32, d: u32, a: u32, b: u32)
    requires { InRegisters regs.old t × (d < 64) × (a < 64) × (b < 64) }
    ensures { regs.new ≡ operate_r regs.old t op flags d a b }
{
    let x = operand::select(regs, t, vector::is_on(flags, 1), a);
    let y = operand::select(regs, t, vector::is_on(flags, 0), b);
    operate(regs, t, op, vector::is_on(flags, 2), d, x, y);
}

#[tactic(auto, unfolding(crate::specs::Operation::operate_i))]
pub fn operate_i(
    regs: &mut [u32],
    t: usize,
    op: Operation,
    flags: u32,
    d: u32,
    a: u32,
    immediate: u32,
)
    requires { InRegisters regs.old t × (d < 64) × (a < 64) }
    ensures { regs.new ≡ operate_i regs.old t op flags d a immediate }
{
    let x = operand::select(regs, t, vector::is_on(flags, 0), a);
    operate(
        regs,
        t,
        op,
        vector::is_on(flags, 1),
        d,
        x,
        Source::Scalar(immediate),
    );
}
