// Which vector flags and registers the words of an operation may have.
ghost use Rattle.std.specs.Prelude.{◌≡◌};
ghost use Rattle.isa.specs.Rule.{flags_unary, flags_r, flags_class, flags_i, has_immediate, destination, operand_b, allows_r, allows_i, allows_movei, allows_j, allows_c, allows_m};
ghost use Rattle.isa.specs.Test.{set_of, in_set};

use crate::instruction::{ControlOp, JumpOp, MemoryOp, Operation, UnaryOp};
use crate::opcode::r_opcode;

// The vector flags that a word of an operation may have, as a set: bit f for flags f. So the compiler looks them up, and does not jump.
fn unary_set(op: UnaryOp) -> u32
    ensures { result ≡ set_of (flags_unary op) }
{
    match op {
        UnaryOp::Move => 0b01010001,
        _ => 0b01000001,
    }
}

fn r_set(op: Operation) -> u32
    ensures { result ≡ set_of (flags_r op) }
{
    match op {
        Operation::Binary(_) => 0b11100001,
        Operation::Unary(op) => unary_set(op),
        Operation::Compare(_) => 0b00001111,
        Operation::Shuffle => 0b10000000,
        Operation::GetLane => 0b00000100,
    }
}

fn class_set(op: Operation) -> u32
    ensures { result ≡ set_of (flags_class op) }
{
    match op {
        Operation::Binary(_) => 0b1001,
        Operation::Compare(_) => 0b0011,
        Operation::GetLane => 0b0010,
        Operation::Unary(_) | Operation::Shuffle => 0,
    }
}

fn i_set(op: Operation) -> u32
    ensures { result ≡ set_of (flags_i op) }
{
    if r_opcode(op) < 32 { class_set(op) } else { 0 }
}

// Whether I has words of an operation of R.
pub fn has_immediate(op: Operation) -> bool
    ensures { result ≡ has_immediate op }
{
    i_set(op) != 0
}

fn is_in(set: u32, flags: u32) -> bool
    ensures { result ≡ in_set set flags }
{
    (flags < 8) & ((set >> (flags % 8)) % 2 == 1)
}

// The program counter.
const PROGRAM_COUNTER: u32 = 63;

fn is_destination(vector: bool, d: u32) -> bool
    ensures { result ≡ destination vector d }
{
    vector | (d != PROGRAM_COUNTER)
}

// Whether an operation takes a number as its b field: a unary one has no operand there.
pub fn operand_b(op: Operation, b: u32) -> bool
    ensures { result ≡ operand_b op b }
{
    !matches!(op, Operation::Unary(_)) | (b == 0)
}

pub fn r_allows(op: Operation, flags: u32, d: u32, b: u32) -> bool
    ensures { result ≡ allows_r op flags d b }
{
    is_in(r_set(op), flags) & is_destination(0b100 <= flags, d) & operand_b(op, b)
}

pub fn i_allows(op: Operation, flags: u32, d: u32) -> bool
    ensures { result ≡ allows_i op flags d }
{
    is_in(i_set(op), flags) & is_destination(0b10 <= flags, d)
}

pub fn movei_allows(flag: u32, d: u32) -> bool
    ensures { result ≡ allows_movei flag d }
{
    is_destination(flag == 1, d)
}

pub fn j_allows(op: JumpOp, register: u32, offset: u32) -> bool
    ensures { result ≡ allows_j op register offset }
{
    match op {
        JumpOp::Jmp | JumpOp::Jmpsr => register == 0,
        JumpOp::Jret => (register == 0) & (offset == 0),
        JumpOp::Beqz | JumpOp::Bnez => true,
    }
}

pub fn c_allows(op: ControlOp, first: u32, second: u32) -> bool
    ensures { result ≡ allows_c op first second }
{
    match op {
        ControlOp::Barrier => true,
        ControlOp::Readcr => is_destination(false, first),
        ControlOp::End => (first == 0) & (second == 0),
    }
}

pub fn m_allows(op: MemoryOp, register: u32) -> bool
    ensures { result ≡ allows_m op register }
{
    !matches!(op, MemoryOp::Load(_)) | is_destination(false, register)
}
