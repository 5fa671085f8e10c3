// The fields of a word that the fast path looks at.
ghost use Rattle.std.specs.Prelude.{◌≡◌, ◌<◌, ◌%◌, ◌^◌};
ghost use Rattle.word_layout.specs.Layout.{field, first_register, second_register, third_register};

// Bits 5-0: an R word on scalars alone has none of them.
pub fn flags_r(w: u32) -> u32
    ensures { result ≡ w % 2 ^ 6 }
{
    w % 64
}

// Bits 2-0: an I or M word on scalars alone has none of them.
pub fn flags_i(w: u32) -> u32
    ensures { result ≡ w % 2 ^ 3 }
{
    w % 8
}

// The number of the register in bits 23-18, and those of operands a and b.
pub fn first(w: u32) -> u32
    ensures { (result ≡ field w first_register) × (result < 64) }
{
    w / 0x40000 % 64
}

pub fn second(w: u32) -> u32
    ensures { (result ≡ field w second_register) × (result < 64) }
{
    w / 0x1000 % 64
}

pub fn third(w: u32) -> u32
    ensures { (result ≡ field w third_register) × (result < 64) }
{
    w / 0x40 % 64
}
