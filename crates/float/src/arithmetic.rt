// R opcodes 33 to 36: the four operations on two patterns. Four functions: each is one line, and one that takes the operation as a closure
// saves none.
ghost use Rattle.std.specs.Prelude.{◌≡◌};
ghost use Rattle.float.specs.Floats.{fadd_of, fsub_of, fmul_of, fdiv_of};

// A pattern's value, and a value's pattern, 0x7FC00000 for every NaN.
use std::num::{f32_from_bits_with_nan as value_of, f32_to_bits_with_nan as pattern_of};

pub fn fadd(a: u32, b: u32) -> u32
    ensures { result ≡ fadd_of a b }
{
    pattern_of(value_of(a) + value_of(b))
}

pub fn fsub(a: u32, b: u32) -> u32
    ensures { result ≡ fsub_of a b }
{
    pattern_of(value_of(a) - value_of(b))
}

pub fn fmul(a: u32, b: u32) -> u32
    ensures { result ≡ fmul_of a b }
{
    pattern_of(value_of(a) * value_of(b))
}

pub fn fdiv(a: u32, b: u32) -> u32
    ensures { result ≡ fdiv_of a b }
{
    pattern_of(value_of(a) / value_of(b))
}
