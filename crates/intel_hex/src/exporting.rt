// Export: a program's bytes as records.
// A buffer and a place go together, as in crate text.
ghost use Rattle.std.specs.Prelude.{[], ◌∷◌, ◌++◌, ◌≡◌, ◌+◌, ◌*◌, ◌/◌, ◌%◌, ◌≤◌, ◌<◌, length, get_or, take, drop, ◌⊎◌};
ghost use Rattle.answer.specs.Refusal.{program_words};
ghost use Rattle.text.specs.Buffer.{wrote, writes};
ghost use Rattle.text.specs.Number.{digit};
ghost use Rattle.intel_hex.specs.Digits.{hexes, total};
ghost use Rattle.intel_hex.specs.Program.{program_bytes};
ghost use Rattle.intel_hex.specs.Export.{heads, checksum, record_text, body, exported, export_into};
ghost use Rattle.intel_hex.specs.Scan.{text_length};

use crate::place::POWERS;
use answer::{PROGRAM_WORDS, Refusal};
use text::digit_of;

// The length of the longest text: 12 bytes a record, the end record too, and two for each of four bytes a word.
pub const LONGEST: usize = 12 * ((PROGRAM_WORDS + 3) / 4) + 8 * PROGRAM_WORDS + 12;

// Puts a byte as two digits at a place, and answers the place behind them.
fn put_byte(out: &mut [u8], at: usize, b: u32) -> usize
    requires { (at + 2 ≤ length out.old) × (b < 256) }
    ensures { wrote result out.new ≡ writes out.old at (hexes (b ∷ [])) }
{
    out[at] = digit_of(b / 16);
    out[at + 1] = digit_of(b);
    at + 2
}

// A byte of a program.
fn program_byte(words: &[u32], k: usize) -> u32
    requires { k < 4 * length words.now }
    ensures { (result ≡ get_or (program_bytes words.now) k 0) × (result < 256) }
{
    words[k / 4] / POWERS[k % 4] % 256
}

// The sum of bytes of a program, modulo 256, behind a sum. By number, here and below: a byte is found in its word by it.
fn sum_from(words: &[u32], from: usize, n: usize, sum: u32) -> u32
    requires { (from + n ≤ 4 * length words.now) × (sum < 1024) }
    ensures { result ≡ (sum + total (take n (drop from (program_bytes words.now)))) % 256 }
{
    let mut s = sum % 256;
    for i in 0..n {
        s = (s + program_byte(words, from + i)) % 256;
    }
    s
}

// Puts bytes of a program at a place, and answers the place behind them.
fn put_bytes(words: &[u32], from: usize, n: usize, out: &mut [u8], at: usize) -> usize
    requires { (from + n ≤ 4 * length words.now) × (at + 2 * n ≤ length out.old) }
    ensures { wrote result out.new ≡ writes out.old at (hexes (take n (drop from (program_bytes words.now)))) }
{
    let mut p = at;
    for i in 0..n {
        p = put_byte(out, p, program_byte(words, from + i));
    }
    p
}

// A colon, and a record's length byte, address and type.
fn head_of(n: u32, address: u32, kind: u32) -> [u8; 9]
    requires { (n < 256) × (address < 65536) × (kind < 256) }
    ensures { result ≡ 58 ∷ hexes (heads n address kind) }
{
    let high = address / 256;
    let low = address % 256;
    [
        b':',
        digit_of(n / 16),
        digit_of(n),
        digit_of(high / 16),
        digit_of(high),
        digit_of(low / 16),
        digit_of(low),
        digit_of(kind / 16),
        digit_of(kind),
    ]
}

// The checksum of a sum below 256, and the LF.
fn tail_of(sum: u32) -> [u8; 3]
    requires { sum < 256 }
    ensures { result ≡ hexes (checksum sum ∷ []) ++ 10 ∷ [] }
{
    let b = (256 - sum) % 256;
    [digit_of(b / 16), digit_of(b), 10]
}

// Puts a record of bytes of a program, and answers the place behind it.
fn put_record(words: &[u32], kind: u32, from: usize, n: usize, out: &mut [u8], at: usize) -> usize
    requires { (from + n ≤ 4 * length words.now) × (at + 2 * n + 12 ≤ length out.old) × (n ≤ 16) × (from < 65536) × (kind < 256) }
    ensures { wrote result out.new ≡ writes out.old at (record_text kind from (take n (drop from (program_bytes words.now)))) }
{
    let f = from as u32;
    let c = n as u32;
    let head = head_of(c, f, kind);
    let tail = tail_of(sum_from(words, from, n, c + f / 256 + f % 256 + kind));
    let p = text::put_text(out, at, &head);
    let p = put_bytes(words, from, n, out, p);
    text::put_text(out, p, &tail)
}

// Puts a program's records, and answers the place behind them.
fn put_body(words: &[u32], out: &mut [u8]) -> usize
    requires { (length words.now ≤ program_words) × (text_length (length words.now) ≤ length out.old) }
    ensures { wrote result out.new ≡ writes out.old 0 (body (program_bytes words.now) ((length words.now + 3) / 4)) }
{
    let count = (words.len() + 3) / 4;
    let mut p = 0;
    for k in 0..count {
        let n = (4 * words.len() - 16 * k).min(16);
        p = put_record(words, 0, 16 * k, n, out, p);
    }
    p
}

// Puts the text of a program at the start of the buffer, and answers its length.
pub fn export(words: &[u32], text: &mut [u8]) -> Result<usize, Refusal>
    ensures { exported result text.new ≡ export_into words.now text.old }
{
    if answer::bad_program(words.len()) {
        return Err(Refusal::Program);
    }
    let n = words.len();
    if text.len() < 12 * ((n + 3) / 4) + 8 * n + 12 {
        return Err(Refusal::ShortBuffer);
    }
    let p = put_body(words, text);
    Ok(put_record(words, 1, 0, 0, text, p))
}
