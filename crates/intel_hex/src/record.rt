// A line's record, without its data bytes.
ghost use Rattle.std.specs.Prelude.{◌≡◌, ◌+◌, ◌*◌, ◌≤◌, ◌<◌, length, get_or};
ghost use Rattle.intel_hex.specs.Digits.{pair, pairs};
ghost use Rattle.intel_hex.specs.Scan.{heading, heading_at, FieldsRead};
ghost use Rattle.intel_hex.specs.Record.{without_cr, record_of, bytes_record};

use crate::digits::{sum_of, value_of};

// Data at an address, and how many bytes of it; the upper half of addresses; the end.
#[derive(Clone, Copy, Debug, PartialEq, Eq)]
pub enum Heading {
    Data(u32, u32),
    Base(u32),
    End,
}

// What two digits write; at most 272, where one is no digit.
pub fn byte_at(digits: &[u8], k: usize) -> u32
    requires { k + k + 1 < length digits.now }
    ensures { (result ≡ pair (get_or digits.now (k + k) 0) (get_or digits.now (k + k + 1) 0)) × (result ≤ 272) }
{
    let high = value_of(digits[k + k]);
    let low = value_of(digits[k + k + 1]);
    16 * u32::from(high) + u32::from(low)
}

// What type, address and length say.
#[tactic(auto, unfolding(crate::specs::Scan::heading_at))]
fn typed(kind: u32, address: u32, n: u32, upper: u32) -> Option<Heading>
    ensures { result ≡ heading_at kind address n upper }
{
    if (kind == 0) & (n != 0) {
        return Some(Heading::Data(address, n));
    }
    if (kind == 1) & (address == 0) & (n == 0) {
        return Some(Heading::End);
    }
    if (kind == 4) & (address == 0) & (n == 2) {
        return Some(Heading::Base(upper));
    }
    None
}

// The fields of digits of which the sum is known.
fn fields(digits: &[u8], sum: u32) -> Option<Heading>
    requires { 10 ≤ length digits.now }
    ensures { FieldsRead digits.now sum result }
{
    let n = byte_at(digits, 0);
    if digits.len() != 10 + 2 * (n as usize) {
        return None;
    }
    if sum != 0 {
        return None;
    }
    // by hand: where a digit is none, `byte_at` is no byte
    let address = 256 * byte_at(digits, 1) + byte_at(digits, 2);
    let kind = byte_at(digits, 3);
    if n != 2 {
        return typed(kind, address, n, 0);
    }
    typed(
        kind,
        address,
        n,
        256 * byte_at(digits, 4) + byte_at(digits, 5),
    )
}

// The record behind a colon.
fn digits_heading(digits: &[u8]) -> Option<Heading>
    ensures { result ≡ heading (bytes_record (pairs digits.now)) }
{
    let sum = sum_of(digits)?;
    if digits.len() < 10 {
        return None;
    }
    fields(digits, sum)
}

// A line's text without the CR at its end.
fn without_cr(line: &[u8]) -> &[u8]
    ensures { result.now ≡ without_cr line.now }
{
    match line {
        [text @ .., b'\r'] => text,
        _ => line,
    }
}

// The record of a line's text; none where it is none.
pub fn heading_of(line: &[u8]) -> Option<Heading>
    ensures { result ≡ heading (record_of line.now) }
{
    match without_cr(line) {
        [b':', digits @ ..] => digits_heading(digits),
        _ => None,
    }
}
