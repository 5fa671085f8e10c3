// The listing: header, lines, and the refusal.
// A buffer and a place go together, as in crate text.
ghost use Rattle.std.specs.Prelude.{◌++◌, ◌≡◌, ◌+◌, ◌≤◌, ◌<◌, length};
ghost use Rattle.isa.specs.Text.{bytes};
ghost use Rattle.text.specs.Buffer.{wrote, writes};
ghost use Rattle.listing.specs.Listing.{columns_of, header, line, printed};

use answer::PROGRAM_WORDS;
use isa::Unreadable;
use little_endian::word_at;
use text::{hex_of, put_decimal, put_text};

// The columns of a line before its name.
fn columns(address: u32, w: u32) -> [u8; 18]
    ensures { result ≡ columns_of address w }
{
    let [a0, a1, a2, a3, a4, a5, a6, a7] = hex_of(address);
    let [w0, w1, w2, w3, w4, w5, w6, w7] = hex_of(w);
    [
        a0, a1, a2, a3, a4, a5, a6, a7, b' ', w0, w1, w2, w3, w4, w5, w6, w7, b' ',
    ]
}

fn put_header(out: &mut [u8], n: u32) -> usize
    requires { (12 ≤ length out.old) × (n < 100000) }
    ensures { wrote result out.new ≡ writes out.old 0 (header n) }
{
    let at = put_text(out, 0, b"words ");
    let at = put_decimal(out, at, n);
    put_text(out, at, b"\n")
}

// Puts a row of two texts and a line end, and answers the place behind it.
fn put_row(out: &mut [u8], at: usize, first: &[u8], rest: &[u8]) -> usize
    requires { at + length first.now + length rest.now + 1 ≤ length out.old }
    ensures { wrote result out.new ≡ writes out.old at (first.now ++ rest.now ++ bytes "\n") }
{
    let at = put_text(out, at, first);
    let at = put_text(out, at, rest);
    put_text(out, at, b"\n")
}

fn put_line(out: &mut [u8], at: usize, address: u32, w: u32) -> usize
    requires { at + 29 ≤ length out.old }
    ensures { wrote result out.new ≡ writes out.old at (line address w) }
{
    let first = columns(address, w);
    match isa::read_word(w) {
        Ok(i) => {
            let name = names::name_of(i);
            put_row(out, at, &first, &name.bytes[..name.len])
        }
        Err(Unreadable::Undefined) => put_row(out, at, &first, b"undefined"),
        Err(Unreadable::NotFitted) => put_row(out, at, &first, b"not-fitted"),
    }
}

// The longest listing: 12 bytes for the header and 29 for each line.
pub const LONGEST: usize = 12 + 29 * PROGRAM_WORDS;

// Puts the listing of a program's bytes at the start of the buffer, and answers its length.
pub fn list(input: &[u8], out: &mut [u8; LONGEST]) -> usize
    ensures { wrote result out.new ≡ printed input.now out.old }
{
    if program::bad_bytes(input.len()) {
        return put_text(out, 0, b"refused 1\n");
    }
    let count = input.len() / 4;
    let mut at = put_header(out, count as u32);
    // by number: it is the word's address
    for k in 0..count {
        at = put_line(out, at, (4 * k) as u32, word_at(input, 4 * k));
    }
    at
}
