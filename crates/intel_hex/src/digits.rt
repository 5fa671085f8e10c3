// Hex digits, read.
ghost use Rattle.std.specs.Prelude.{◌≡◌, ◌≤◌};
ghost use Rattle.intel_hex.specs.Digits.{value, pairs};
ghost use Rattle.intel_hex.specs.Scan.{digested};

// What a digit counts; 16 for any other byte, as the definition counts it: the bytes of digits that were summed are read with no test. It
// has one branch, since digits and letters come in no order that could be foretold.
pub fn value_of(c: u8) -> u8
    ensures { (result ≡ value c) × (result ≤ 16) }
{
    let is_digit = (47 < c) & (c < 58);
    let is_letter = (64 < c) & (c < 71);
    if is_digit | is_letter {
        return c % 16 + 9 * (c / 64);
    }
    16
}

// The sum of the bytes that digits write, modulo 256; none where their number is odd or one is no digit.
pub fn sum_of(digits: &[u8]) -> Option<u32>
    ensures { result ≡ digested 0 (pairs digits.now) }
{
    let mut sum = 0;
    let mut rest = digits;
    while let [high, low, behind @ ..] = rest {
        let high = value_of(*high);
        let low = value_of(*low);
        if 15 < high || 15 < low {
            return None;
        }
        sum = (sum + 16 * u32::from(high) + u32::from(low)) % 256;
        rest = behind;
    }
    if !rest.is_empty() {
        return None;
    }
    Some(sum)
}
