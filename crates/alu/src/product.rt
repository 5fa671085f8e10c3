// Products of two words: the low half, and the high half signed and unsigned.
ghost use Rattle.std.specs.Prelude.{◌≡◌, if◌then◌else◌};
ghost use Rattle.isa.specs.declared.instruction.BinaryOp.TheVariants.{Mullo, Mulhi, Mulhu};
ghost use Rattle.twos_complement.specs.Word.{negative};
ghost use Rattle.alu.specs.Binary.{binary};

pub fn mullo(x: u32, y: u32) -> u32
    ensures { result ≡ binary Mullo x y }
{
    x.wrapping_mul(y)
}

pub fn mulhu(x: u32, y: u32) -> u32
    ensures { result ≡ binary Mulhu x y }
{
    (u64::from(x) * u64::from(y) / 4294967296) as u32
}

// What the signed high half lacks of the unsigned one for the sign of x: x is then 2^32 too large.
fn excess(x: u32, y: u32) -> u32
    ensures { result ≡ (if negative 32 x then y else 0) }
{
    if 2147483648 <= x { y } else { 0 }
}

// By the unsigned half: a product of two i64 would be cut back to a word by hand.
pub fn mulhi(x: u32, y: u32) -> u32
    ensures { result ≡ binary Mulhi x y }
{
    mulhu(x, y)
        .wrapping_sub(excess(x, y))
        .wrapping_sub(excess(y, x))
}
