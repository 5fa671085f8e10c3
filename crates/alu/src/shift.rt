// Shifts of a word, by the low five bits of the second operand.
ghost use Rattle.std.specs.Prelude.{◌≡◌};
ghost use Rattle.isa.specs.declared.instruction.BinaryOp.TheVariants.{Ashr, Shr, Shl};
ghost use Rattle.alu.specs.Binary.{binary};

// A negative word is shifted as its complement, so that ones come in from above: the compiler makes one instruction of it.
pub fn ashr(x: u32, y: u32) -> u32
    ensures { result ≡ binary Ashr x y }
{
    if x < 2147483648 {
        x.wrapping_shr(y)
    } else {
        !(!x).wrapping_shr(y)
    }
}

pub fn shr(x: u32, y: u32) -> u32
    ensures { result ≡ binary Shr x y }
{
    x.wrapping_shr(y)
}

pub fn shl(x: u32, y: u32) -> u32
    ensures { result ≡ binary Shl x y }
{
    x.wrapping_shl(y)
}
