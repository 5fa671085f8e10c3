// Numbers as text.
ghost use Rattle.std.specs.Prelude.{◌≡◌, ◌%◌};
ghost use Rattle.text.specs.Buffer.{wrote, puts};
ghost use Rattle.text.specs.Number.{digit, hex, decimal, decimal_long};

use crate::buffer::put_text;

// The last digit of a number in hex.
pub fn digit_of(n: u32) -> u8
    ensures { result ≡ digit (n % 16) }
{
    let last = n % 16;
    if last < 10 {
        b'0' + last as u8
    } else {
        b'A' + (last - 10) as u8
    }
}

// The eight digits of a number in upper-case hex.
pub fn hex_of(n: u32) -> [u8; 8]
    ensures { result ≡ hex n }
{
    [
        digit_of(n / 0x10000000),
        digit_of(n / 0x1000000),
        digit_of(n / 0x100000),
        digit_of(n / 0x10000),
        digit_of(n / 0x1000),
        digit_of(n / 0x100),
        digit_of(n / 0x10),
        digit_of(n),
    ]
}

// Puts a number of 64 bits in decimal at a place, and answers the place behind it; nothing where it has no room there.
pub fn put_long(out: &mut [u8], at: usize, n: u64) -> usize
    ensures { wrote result out.new ≡ puts (wrote at out.old) (decimal_long n) }
{
    let mut digits = [0u8; 20];
    let count = io::decimal(n, &mut digits);
    put_text(out, at, &digits[..count])
}

// The same of a number of 32 bits.
pub fn put_decimal(out: &mut [u8], at: usize, n: u32) -> usize
    ensures { wrote result out.new ≡ puts (wrote at out.old) (decimal n) }
{
    put_long(out, at, u64::from(n))
}
