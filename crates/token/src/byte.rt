// What a byte of a source is.
ghost use Rattle.std.specs.Prelude.{◌≡◌};
ghost use Rattle.token.specs.Byte.{is_blank, is_digit, is_letter, in_word, digit};

pub fn is_blank(c: u8) -> bool
    ensures { result ≡ is_blank c }
{
    (c == b' ') | (c == b'\t')
}

pub fn is_digit(c: u8) -> bool
    ensures { result ≡ is_digit c }
{
    c.is_ascii_digit()
}

pub fn is_letter(c: u8) -> bool
    ensures { result ≡ is_letter c }
{
    c.is_ascii_lowercase() | c.is_ascii_uppercase()
}

pub fn in_word(c: u8) -> bool
    ensures { result ≡ in_word c }
{
    is_letter(c) | is_digit(c)
}

// The value of a hex digit; 16 for any other byte.
pub fn digit_of(c: u8) -> u64
    ensures { result ≡ digit c }
{
    match c {
        b'0'..=b'9' => u64::from(c - b'0'),
        b'a'..=b'f' => u64::from(c - b'a') + 10,
        b'A'..=b'F' => u64::from(c - b'A') + 10,
        _ => 16,
    }
}
