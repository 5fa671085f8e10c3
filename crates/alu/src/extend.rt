// The low bits of a word as a signed number.
ghost use Rattle.std.specs.Prelude.{◌≡◌, ◌*◌, ◌%◌, ◌^◌, ◌≤◌, ◌<◌};
ghost use Rattle.isa.specs.declared.instruction.UnaryOp.TheVariants.{Sext8, Sext16};
ghost use Rattle.word_layout.specs.Layout.{extended};
ghost use Rattle.alu.specs.Unary.{unary};

// The bits up to the sign's, which weighs `sign`.
fn sext(sign: u32, x: u32) -> u32
    requires { (0 < sign) × (sign < 2 ^ 31) }
    ensures { result ≡ extended 32 sign (x % (2 * sign)) }
{
    let low = x % (2 * sign);
    if sign <= low {
        low.wrapping_sub(2 * sign)
    } else {
        low
    }
}

pub fn sext8(x: u32) -> u32
    ensures { result ≡ unary Sext8 x }
{
    sext(128, x)
}

pub fn sext16(x: u32) -> u32
    ensures { result ≡ unary Sext16 x }
{
    sext(32768, x)
}
