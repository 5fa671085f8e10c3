// The words of the fast path, by their top bytes. The last arm of each table is the next one: the compiler makes one jump of them all.
ghost use Rattle.std.specs.Prelude.{◌≡◌, ◌/◌, ◌^◌, ◌<◌};
ghost use Rattle.execution.specs.Registers.{InRegisters};
ghost use Rattle.word_layout.specs.Layout.{field, first_register};
ghost use Rattle.machine.specs.State.{program_counter_register};
ghost use Rattle.fast_path.specs.Action.{ActsOn, ActsAnywhere};

use crate::action::Action;
use crate::family::{
    binary_i, binary_r, compare_i, compare_r, jump, load, move_immediate, unary_r,
};
use isa::{BinaryOp, CompareOp, JumpOp, LoadOp, MoveiOp, UnaryOp};

// R words.
fn r_words(regs: &[u32], t: usize, w: u32, top: u8) -> Action
    requires { InRegisters regs.now t × (w / 2 ^ 24 ≡ top) × (field w first_register < program_counter_register) }
    ensures { ActsAnywhere t w regs.now result }
{
    match top {
        0x01 => binary_r(regs, t, w, BinaryOp::Or),
        0x02 => binary_r(regs, t, w, BinaryOp::And),
        0x03 => binary_r(regs, t, w, BinaryOp::Xor),
        0x04 => binary_r(regs, t, w, BinaryOp::Add),
        0x05 => binary_r(regs, t, w, BinaryOp::Sub),
        0x06 => binary_r(regs, t, w, BinaryOp::Mullo),
        0x07 => binary_r(regs, t, w, BinaryOp::Mulhi),
        0x08 => binary_r(regs, t, w, BinaryOp::Mulhu),
        0x09 => binary_r(regs, t, w, BinaryOp::Ashr),
        0x0A => binary_r(regs, t, w, BinaryOp::Shr),
        0x0B => binary_r(regs, t, w, BinaryOp::Shl),
        0x0C => unary_r(regs, t, w, UnaryOp::Clz),
        0x0D => unary_r(regs, t, w, UnaryOp::Ctz),
        0x0E => compare_r(regs, t, w, CompareOp::Eq),
        0x0F => compare_r(regs, t, w, CompareOp::Ne),
        0x10 => compare_r(regs, t, w, CompareOp::Gt),
        0x11 => compare_r(regs, t, w, CompareOp::Ge),
        0x12 => compare_r(regs, t, w, CompareOp::Lt),
        0x13 => compare_r(regs, t, w, CompareOp::Le),
        0x14 => compare_r(regs, t, w, CompareOp::Ugt),
        0x15 => compare_r(regs, t, w, CompareOp::Uge),
        0x16 => compare_r(regs, t, w, CompareOp::Ult),
        0x17 => compare_r(regs, t, w, CompareOp::Ule),
        0x20 => unary_r(regs, t, w, UnaryOp::Move),
        0x2B => unary_r(regs, t, w, UnaryOp::Sext8),
        0x2C => unary_r(regs, t, w, UnaryOp::Sext16),
        _ => Action::Defer,
    }
}

// I words.
fn i_words(regs: &[u32], t: usize, w: u32, top: u8) -> Action
    requires { InRegisters regs.now t × (w / 2 ^ 24 ≡ top) × (field w first_register < program_counter_register) }
    ensures { ActsAnywhere t w regs.now result }
{
    match top {
        0x41 => binary_i(regs, t, w, BinaryOp::Or),
        0x42 => binary_i(regs, t, w, BinaryOp::And),
        0x43 => binary_i(regs, t, w, BinaryOp::Xor),
        0x44 => binary_i(regs, t, w, BinaryOp::Add),
        0x45 => binary_i(regs, t, w, BinaryOp::Sub),
        0x46 => binary_i(regs, t, w, BinaryOp::Mullo),
        0x47 => binary_i(regs, t, w, BinaryOp::Mulhi),
        0x48 => binary_i(regs, t, w, BinaryOp::Mulhu),
        0x49 => binary_i(regs, t, w, BinaryOp::Ashr),
        0x4A => binary_i(regs, t, w, BinaryOp::Shr),
        0x4B => binary_i(regs, t, w, BinaryOp::Shl),
        0x4E => compare_i(regs, t, w, CompareOp::Eq),
        0x4F => compare_i(regs, t, w, CompareOp::Ne),
        0x50 => compare_i(regs, t, w, CompareOp::Gt),
        0x51 => compare_i(regs, t, w, CompareOp::Ge),
        0x52 => compare_i(regs, t, w, CompareOp::Lt),
        0x53 => compare_i(regs, t, w, CompareOp::Le),
        0x54 => compare_i(regs, t, w, CompareOp::Ugt),
        0x55 => compare_i(regs, t, w, CompareOp::Uge),
        0x56 => compare_i(regs, t, w, CompareOp::Ult),
        0x57 => compare_i(regs, t, w, CompareOp::Ule),
        _ => r_words(regs, t, w, top),
    }
}

// MOVEI and J words.
fn moves_and_jumps(regs: &[u32], t: usize, w: u32, top: u8) -> Action
    requires { InRegisters regs.now t × (w / 2 ^ 24 ≡ top) × (field w first_register < program_counter_register) }
    ensures { ActsAnywhere t w regs.now result }
{
    match top {
        0x60 => move_immediate(regs, t, w, MoveiOp::Low),
        0x61 => move_immediate(regs, t, w, MoveiOp::High),
        0x62 => move_immediate(regs, t, w, MoveiOp::Whole),
        0x70 => jump(regs, t, w, JumpOp::Jmp),
        0x75 => jump(regs, t, w, JumpOp::Beqz),
        0x76 => jump(regs, t, w, JumpOp::Bnez),
        _ => i_words(regs, t, w, top),
    }
}

// Loads, and the words of the other formats.
pub fn action(regs: &[u32], memory: &[u8], t: usize, w: u32, top: u8) -> Action
    requires { InRegisters regs.now t × (w / 2 ^ 24 ≡ top) × (field w first_register < program_counter_register) }
    ensures { ActsOn t w regs.now memory.now result }
{
    match top {
        0x80 => load(regs, memory, t, w, LoadOp::Load8),
        0x81 => load(regs, memory, t, w, LoadOp::Load16),
        0x82 => load(regs, memory, t, w, LoadOp::Load32),
        0x84 => load(regs, memory, t, w, LoadOp::Load8u),
        0x85 => load(regs, memory, t, w, LoadOp::Load16u),
        _ => moves_and_jumps(regs, t, w, top),
    }
}
