// Numbers as arguments give them: decimal digits.
ghost use Rattle.std.specs.Prelude.{◌≡◌};
ghost use Rattle.std.proofs.Math.Option.{some};
ghost use Rattle.text.specs.Argument.{given, with_digit, number};

// One more digit behind what was read.
fn with_digit(before: u32, byte: u8) -> Option<u32>
    ensures { given result ≡ with_digit (some before) byte }
{
    if !byte.is_ascii_digit() {
        return None;
    }
    before.checked_mul(10)?.checked_add(u32::from(byte - b'0'))
}

// The decimal number of 32 bits that an argument gives.
pub fn number_of(text: &[u8]) -> Option<u32>
    ensures { given result ≡ number text.now }
{
    if text.is_empty() {
        return None;
    }
    let mut read = 0;
    for &byte in text {
        read = with_digit(read, byte)?;
    }
    Some(read)
}
