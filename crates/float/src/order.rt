// R opcodes 37 to 42: the six compares of two patterns. Six functions: each is one line, and one that takes the test as a closure saves none.
ghost use Rattle.std.specs.Prelude.{◌≡◌};
ghost use Rattle.float.specs.Floats.{feq_of, fne_of, fgt_of, fge_of, flt_of, fle_of};

use std::num::f32_from_bits_with_nan as value_of;

pub fn feq(a: u32, b: u32) -> bool
    ensures { result ≡ feq_of a b }
{
    value_of(a) == value_of(b)
}

pub fn fne(a: u32, b: u32) -> bool
    ensures { result ≡ fne_of a b }
{
    value_of(a) != value_of(b)
}

pub fn fgt(a: u32, b: u32) -> bool
    ensures { result ≡ fgt_of a b }
{
    value_of(a) > value_of(b)
}

pub fn fge(a: u32, b: u32) -> bool
    ensures { result ≡ fge_of a b }
{
    value_of(a) >= value_of(b)
}

pub fn flt(a: u32, b: u32) -> bool
    ensures { result ≡ flt_of a b }
{
    value_of(a) < value_of(b)
}

pub fn fle(a: u32, b: u32) -> bool
    ensures { result ≡ fle_of a b }
{
    value_of(a) <= value_of(b)
}
