// Families of words on scalars: what a word does, or that it is tried as one on vectors or left to the slow path.
ghost use Rattle.std.specs.Prelude.{◌≡◌, if◌then◌else◌};
ghost use Rattle.execution.specs.Immediate.{replaced};
ghost use Rattle.execution.specs.Registers.{InRegisters};
ghost use Rattle.isa.specs.Claims.{HalfWord};
ghost use Rattle.isa.specs.Table.{row_r, row_movei, row_j, row_m};
ghost use Rattle.fast_path.specs.Action.{HasOpcode, ActsOn, ActsAnywhere};
ghost use Rattle.fast_path.specs.Types.{Next, Jump, Binary, Unary, Compare, Load};

use crate::action::Action;
use crate::{field, registers};
use isa::{BinaryOp, CompareOp, JumpOp, LoadOp, MoveiOp, UnaryOp};

// R and I have functions of their own: they differ in the flags, in operand b and in the law of their words, and a function of both with a
// parameter for each is no plainer.
pub fn binary_r(regs: &[u32], t: usize, w: u32, op: BinaryOp) -> Action
    requires { InRegisters regs.now t × HasOpcode w 0x00 64 (row_r (Binary op)).opcode }
    ensures { ActsAnywhere t w regs.now result }
{
    if field::flags_r(w) != 0 {
        return Action::Lanes;
    }
    let x = registers::scalar(regs, t, field::second(w));
    let y = registers::scalar(regs, t, field::third(w));
    Action::Write(alu::binary(op, x, y))
}

pub fn binary_i(regs: &[u32], t: usize, w: u32, op: BinaryOp) -> Action
    requires { InRegisters regs.now t × HasOpcode w 0x40 32 (row_r (Binary op)).opcode }
    ensures { ActsAnywhere t w regs.now result }
{
    if field::flags_i(w) != 0 {
        return Action::Lanes;
    }
    let x = registers::scalar(regs, t, field::second(w));
    let y = word_layout::short_signed(w);
    Action::Write(alu::binary(op, x, y))
}

// Field b is 0.
pub fn unary_r(regs: &[u32], t: usize, w: u32, op: UnaryOp) -> Action
    requires { InRegisters regs.now t × HasOpcode w 0x00 64 (row_r (Unary op)).opcode }
    ensures { ActsAnywhere t w regs.now result }
{
    if w % 4096 != 0 {
        return Action::Defer;
    }
    let x = registers::scalar(regs, t, field::second(w));
    Action::Write(alu::unary(op, x))
}

pub fn compare_r(regs: &[u32], t: usize, w: u32, op: CompareOp) -> Action
    requires { InRegisters regs.now t × HasOpcode w 0x00 64 (row_r (Compare op)).opcode }
    ensures { ActsAnywhere t w regs.now result }
{
    if field::flags_r(w) != 0 {
        return Action::Lanes;
    }
    let x = registers::scalar(regs, t, field::second(w));
    let y = registers::scalar(regs, t, field::third(w));
    Action::Write(u32::from(ordering::compare(op, x, y)))
}

pub fn compare_i(regs: &[u32], t: usize, w: u32, op: CompareOp) -> Action
    requires { InRegisters regs.now t × HasOpcode w 0x40 32 (row_r (Compare op)).opcode }
    ensures { ActsAnywhere t w regs.now result }
{
    if field::flags_i(w) != 0 {
        return Action::Lanes;
    }
    let x = registers::scalar(regs, t, field::second(w));
    let y = word_layout::short_signed(w);
    Action::Write(u32::from(ordering::compare(op, x, y)))
}

// What a move of n makes of a register that held `old`, where n is in range.
fn replace(op: MoveiOp, old: u32, n: u32) -> u32
    requires { HalfWord op n }
    ensures { result ≡ replaced op old n }
{
    match op {
        MoveiOp::Low => old / 65536 * 65536 + n,
        MoveiOp::High => n * 65536 + old % 65536,
        MoveiOp::Whole => n,
    }
}

pub fn move_immediate(regs: &[u32], t: usize, w: u32, op: MoveiOp) -> Action
    requires { InRegisters regs.now t × HasOpcode w 0x60 8 (row_movei op).opcode }
    ensures { ActsAnywhere t w regs.now result }
{
    if w % 4 != 0 {
        return Action::Defer;
    }
    let old = registers::scalar(regs, t, field::first(w));
    Action::Write(replace(op, old, isa::movei_number(op, w)))
}

// A branch, taken or not.
fn branch(taken: bool, offset: u32) -> Action
    ensures { result ≡ (if taken then Jump offset else Next) }
{
    if taken {
        Action::Jump(offset)
    } else {
        Action::Next
    }
}

// jmp has register 0. What links or takes its target from a register is left to the slow path.
pub fn jump(regs: &[u32], t: usize, w: u32, op: JumpOp) -> Action
    requires { InRegisters regs.now t × HasOpcode w 0x70 8 (row_j op).opcode }
    ensures { ActsAnywhere t w regs.now result }
{
    let register = field::first(w);
    let x = registers::scalar(regs, t, register);
    let offset = word_layout::long_signed(w);
    match op {
        JumpOp::Jmp => if register == 0 {
            Action::Jump(offset)
        } else {
            Action::Defer
        },
        JumpOp::Jmpsr | JumpOp::Jret => Action::Defer,
        JumpOp::Beqz => branch(x == 0, offset),
        JumpOp::Bnez => branch(x != 0, offset),
    }
}

// A load that traps is left to the slow path, which finds the trap again.
pub fn load(regs: &[u32], memory: &[u8], t: usize, w: u32, op: LoadOp) -> Action
    requires { InRegisters regs.now t × HasOpcode w 0x80 64 (row_m (Load op)).opcode }
    ensures { ActsOn t w regs.now memory.now result }
{
    if field::flags_i(w) != 0 {
        return Action::Defer;
    }
    let base = registers::scalar(regs, t, field::second(w));
    let offset = word_layout::short_signed(w);
    match memory::load(op, memory, base, offset) {
        Ok(x) => Action::Write(x),
        Err(_) => Action::Defer,
    }
}
