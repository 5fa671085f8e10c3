// The two families of operations on words: two operands, one operand.
ghost use Rattle.std.specs.Prelude.{◌≡◌};
ghost use Rattle.alu.specs.Binary.{is_float, integer, arithmetic, binary};
ghost use Rattle.alu.specs.Unary.{is_conversion, integer_unary, conversion, unary};

use crate::extend::{sext8, sext16};
use crate::product::{mulhi, mulhu, mullo};
use crate::shift::{ashr, shl, shr};
use float::{f32toi32, fadd, fdiv, fmul, fsub, i32tof32};
use isa::{BinaryOp, UnaryOp};

// The operations on whole numbers, apart from those on floats: what the lane loops call has to be small, or the compiler makes no vector
// instructions of them.
pub fn integer(op: BinaryOp, x: u32, y: u32) -> u32
    ensures { result ≡ integer op x y }
{
    match op {
        BinaryOp::Or => x | y,
        BinaryOp::And => x & y,
        BinaryOp::Xor => x ^ y,
        BinaryOp::Add => x.wrapping_add(y),
        BinaryOp::Sub => x.wrapping_sub(y),
        BinaryOp::Mullo => mullo(x, y),
        BinaryOp::Mulhi => mulhi(x, y),
        BinaryOp::Mulhu => mulhu(x, y),
        BinaryOp::Ashr => ashr(x, y),
        BinaryOp::Shr => shr(x, y),
        BinaryOp::Shl => shl(x, y),
        BinaryOp::Fadd | BinaryOp::Fsub | BinaryOp::Fmul | BinaryOp::Fdiv => 0,
    }
}

// The operations on floats.
pub fn arithmetic(op: BinaryOp, x: u32, y: u32) -> u32
    ensures { result ≡ arithmetic op x y }
{
    match op {
        BinaryOp::Fadd => fadd(x, y),
        BinaryOp::Fsub => fsub(x, y),
        BinaryOp::Fmul => fmul(x, y),
        BinaryOp::Fdiv => fdiv(x, y),
        _ => 0,
    }
}

fn is_float(op: BinaryOp) -> bool
    ensures { result ≡ is_float op }
{
    matches!(
        op,
        BinaryOp::Fadd | BinaryOp::Fsub | BinaryOp::Fmul | BinaryOp::Fdiv
    )
}

pub fn binary(op: BinaryOp, x: u32, y: u32) -> u32
    ensures { result ≡ binary op x y }
{
    if is_float(op) {
        return arithmetic(op, x, y);
    }
    integer(op, x, y)
}

// The operations within whole numbers, apart from the conversions, for the lane loops too.
pub fn integer_unary(op: UnaryOp, x: u32) -> u32
    ensures { result ≡ integer_unary op x }
{
    match op {
        UnaryOp::Clz => x.leading_zeros(),
        UnaryOp::Ctz => x.trailing_zeros(),
        UnaryOp::Move => x,
        UnaryOp::Sext8 => sext8(x),
        UnaryOp::Sext16 => sext16(x),
        UnaryOp::IntToFloat | UnaryOp::FloatToInt => 0,
    }
}

// The conversions between whole numbers and floats.
pub fn conversion(op: UnaryOp, x: u32) -> u32
    ensures { result ≡ conversion op x }
{
    match op {
        UnaryOp::IntToFloat => i32tof32(x),
        UnaryOp::FloatToInt => f32toi32(x),
        _ => 0,
    }
}

fn is_conversion(op: UnaryOp) -> bool
    ensures { result ≡ is_conversion op }
{
    matches!(op, UnaryOp::IntToFloat | UnaryOp::FloatToInt)
}

pub fn unary(op: UnaryOp, x: u32) -> u32
    ensures { result ≡ unary op x }
{
    if is_conversion(op) {
        return conversion(op, x);
    }
    integer_unary(op, x)
}
