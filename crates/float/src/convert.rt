// R opcodes 48 and 49: a whole number as a float, and a float cut to a whole number. Worked out on bits, with no float instruction.
ghost use Rattle.std.specs.Prelude.{◌≡◌, false, ◌<◌, ◌^◌, nat_abs};
ghost use Rattle.std.specs.Float.Ieee as Ieee;
ghost use Rattle.std.specs.Float.{binary32};
ghost use Rattle.float.specs.Floats.{pattern, signed, i32tof32_of, f32toi32_of};

// 48 of a magnitude: its 24 leading digits, rounded to nearest even. The leading digit adds one to the exponent's field,
// and so does a carry out of the digits.
fn rounded(a: u32) -> u32
    requires { 0 < a }
    ensures { (result ≡ pattern (Ieee.round binary32 false a 1)) × (result < 2 ^ 31) }
{
    let zeros = a.leading_zeros();
    let top = a << zeros;
    let digits = top >> 8;
    let carry = (top % 256 + 127 + digits % 2) >> 8;
    (157 - zeros) * 0x0080_0000 + digits + carry
}

// The magnitude of a register's signed number.
fn magnitude(w: u32) -> u32
    ensures { result ≡ nat_abs (signed w) }
{
    w.cast_signed().unsigned_abs()
}

// 48: the sign's bit, and the rounded magnitude.
pub fn i32tof32(w: u32) -> u32
    ensures { result ≡ i32tof32_of w }
{
    if w == 0 {
        return 0;
    }
    w / 0x8000_0000 * 0x8000_0000 + rounded(magnitude(w))
}

// 49: from 2^31 on every pattern gives 0x80000000, which is also the word of -2^31.
pub fn f32toi32(b: u32) -> u32
    ensures { result ≡ f32toi32_of b }
{
    let m = b % 0x8000_0000;
    if m < 0x3f80_0000 {
        return 0;
    }
    if 0x4f00_0000 <= m {
        return 0x8000_0000;
    }
    let a = (0x8000_0000 + m % 0x0080_0000 * 256) >> (158 - m / 0x0080_0000);
    if b < 0x8000_0000 {
        return a;
    }
    a.wrapping_neg()
}
