// Words: the number that one is, and whether one may be a label.
ghost use Rattle.std.specs.Prelude.{◌+◌, ◌*◌, ◌≤◌, ◌<◌, ◌≡◌, length};
ghost use Rattle.token.specs.Number.{number, numeral};
ghost use Rattle.token.specs.Name.{all_letters, is_label};
ghost use Rattle.token.specs.Word.{cap, capped, numbered};

use crate::byte::{digit_of, is_letter};

// A number with one digit more; 2^31 + 1 for every larger one.
fn with_digit(n: u64, base: u64, d: u64) -> u64
    requires { (n ≤ 0x80000001) × (base ≤ 16) × (d < base) }
    ensures { result ≡ cap (n * base + d) }
{
    let more = n * base + d;
    if 0x80000000 < more { 0x80000001 } else { more }
}

// The number that digits of a base are.
fn numeral(digits: &[u8], base: u64) -> Option<u64>
    requires { (base ≤ 16) × (1 < base) }
    ensures { numbered result ≡ capped (numeral base digits.now) }
{
    if digits.is_empty() {
        return None;
    }
    let mut n = 0;
    for c in digits {
        let d = digit_of(*c);
        if base <= d {
            return None;
        }
        n = with_digit(n, base, d);
    }
    Some(n)
}

// The decimal number that a word is; 2^31 + 1 for every number larger than 2^31.
pub fn decimal(word: &[u8]) -> Option<u64>
    ensures { numbered result ≡ capped (numeral 10 word.now) }
{
    numeral(word, 10)
}

// The number that a word is; 2^31 + 1 for every number larger than 2^31.
pub fn number_of(word: &[u8]) -> Option<u64>
    ensures { numbered result ≡ capped (number word.now) }
{
    if word.starts_with(b"0x") {
        return numeral(&word[2..], 16);
    }
    decimal(word)
}

// Whether a word may be a label.
pub fn is_label(word: &[u8]) -> bool
    ensures { result ≡ is_label word.now }
{
    word.iter().all(|c| is_letter(*c)) & ((1 <= word.len()) & (word.len() <= 16))
}
