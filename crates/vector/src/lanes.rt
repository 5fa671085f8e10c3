// Sixteen lanes: the operations lane by lane, shuffle and blend.
ghost use Rattle.std.specs.Prelude.{◌≡◌};
ghost use Rattle.alu.specs.Binary.{integer, arithmetic};
ghost use Rattle.alu.specs.Unary.{integer_unary, conversion};
ghost use Rattle.vector.specs.Lanes.{tab, lane, is_on, binary_lanes, unary_lanes, shuffled, blended};

use alu::{arithmetic, conversion, integer, integer_unary};
use isa::{BinaryOp, UnaryOp};
use std::array;

// The loop over the lanes is the library's: the compiler makes vector instructions of it where the operation is known. Four functions of
// one line: one that takes the operation as a closure saves none.
pub fn each_integer(op: BinaryOp, x: [u32; 16], y: [u32; 16]) -> [u32; 16]
    ensures { result ≡ tab 16 (λ j. integer op (lane x j) (lane y j)) }
{
    array::from_fn(|j| integer(op, x[j], y[j]))
}

fn each_float(op: BinaryOp, x: [u32; 16], y: [u32; 16]) -> [u32; 16]
    ensures { result ≡ tab 16 (λ j. arithmetic op (lane x j) (lane y j)) }
{
    array::from_fn(|j| arithmetic(op, x[j], y[j]))
}

fn each_integer_unary(op: UnaryOp, x: [u32; 16]) -> [u32; 16]
    ensures { result ≡ tab 16 (λ j. integer_unary op (lane x j)) }
{
    array::from_fn(|j| integer_unary(op, x[j]))
}

fn each_conversion(op: UnaryOp, x: [u32; 16]) -> [u32; 16]
    ensures { result ≡ tab 16 (λ j. conversion op (lane x j)) }
{
    array::from_fn(|j| conversion(op, x[j]))
}

// The match stands outside the lane loop: with the operation known, the compiler makes vector instructions of the loop.
#[tactic(auto, unfolding(crate::specs::Lanes::binary_lanes))]
fn binary_lanes(op: BinaryOp, x: [u32; 16], y: [u32; 16]) -> [u32; 16]
    ensures { result ≡ binary_lanes op x y }
{
    match op {
        BinaryOp::Or => each_integer(BinaryOp::Or, x, y),
        BinaryOp::And => each_integer(BinaryOp::And, x, y),
        BinaryOp::Xor => each_integer(BinaryOp::Xor, x, y),
        BinaryOp::Add => each_integer(BinaryOp::Add, x, y),
        BinaryOp::Sub => each_integer(BinaryOp::Sub, x, y),
        BinaryOp::Mullo => each_integer(BinaryOp::Mullo, x, y),
        BinaryOp::Mulhi => each_integer(BinaryOp::Mulhi, x, y),
        BinaryOp::Mulhu => each_integer(BinaryOp::Mulhu, x, y),
        BinaryOp::Ashr => each_integer(BinaryOp::Ashr, x, y),
        BinaryOp::Shr => each_integer(BinaryOp::Shr, x, y),
        BinaryOp::Shl => each_integer(BinaryOp::Shl, x, y),
        BinaryOp::Fadd => each_float(BinaryOp::Fadd, x, y),
        BinaryOp::Fsub => each_float(BinaryOp::Fsub, x, y),
        BinaryOp::Fmul => each_float(BinaryOp::Fmul, x, y),
        BinaryOp::Fdiv => each_float(BinaryOp::Fdiv, x, y),
    }
}

#[tactic(auto, unfolding(crate::specs::Lanes::unary_lanes))]
fn unary_lanes(op: UnaryOp, x: [u32; 16]) -> [u32; 16]
    ensures { result ≡ unary_lanes op x }
{
    match op {
        UnaryOp::Clz => each_integer_unary(UnaryOp::Clz, x),
        UnaryOp::Ctz => each_integer_unary(UnaryOp::Ctz, x),
        UnaryOp::Move => each_integer_unary(UnaryOp::Move, x),
        UnaryOp::Sext8 => each_integer_unary(UnaryOp::Sext8, x),
        UnaryOp::Sext16 => each_integer_unary(UnaryOp::Sext16, x),
        UnaryOp::IntToFloat => each_conversion(UnaryOp::IntToFloat, x),
        UnaryOp::FloatToInt => each_conversion(UnaryOp::FloatToInt, x),
    }
}

pub fn shuffle(x: [u32; 16], y: [u32; 16]) -> [u32; 16]
    ensures { result ≡ shuffled x y }
{
    array::from_fn(|j| x[(y[j] % 16) as usize])
}

// Whether a lane is on in a lane mask.
pub fn is_on(mask: u32, j: usize) -> bool
    ensures { result ≡ is_on mask j }
{
    j < 32 && (mask >> j) % 2 == 1
}

pub fn blend(mask: u32, new: [u32; 16], old: [u32; 16]) -> [u32; 16]
    ensures { result ≡ blended mask new old }
{
    array::from_fn(|j| if is_on(mask, j) { new[j] } else { old[j] })
}

// An operation and the blend of its result in one: the compiler then has all of it in vector registers.
pub fn binary_masked(
    op: BinaryOp,
    mask: u32,
    x: [u32; 16],
    y: [u32; 16],
    old: [u32; 16],
) -> [u32; 16]
    ensures { result ≡ blended mask (binary_lanes op x y) old }
{
    blend(mask, binary_lanes(op, x, y), old)
}

pub fn unary_masked(op: UnaryOp, mask: u32, x: [u32; 16], old: [u32; 16]) -> [u32; 16]
    ensures { result ≡ blended mask (unary_lanes op x) old }
{
    blend(mask, unary_lanes(op, x), old)
}
