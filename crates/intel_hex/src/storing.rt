// The bytes of a judged file, stored as words.
ghost use Rattle.std.specs.Prelude.{◌≡◌, ◌+◌, ◌-◌, ◌*◌, ◌/◌, ◌≤◌, ◌<◌, length, replicate};
ghost use Rattle.intel_hex.specs.Storing.{put_byte, store_all, pair_bytes, words_after, place_after, RecordFits, ImageFits, Stores};

use crate::place::POWERS;
use crate::record::{Heading, byte_at, heading_of};
use crate::scan::line_feed;

// Puts a byte at an address.
fn put_at(words: &mut [u32], a: usize, b: u32)
    requires { (a < 4 * length words.old) × (b < 256) }
    ensures { words.new ≡ put_byte words.old a b }
{
    let p = POWERS[a % 4];
    let old = words[a / 4];
    words[a / 4] = old % p + b * p;
}

// Puts zero bytes from an address to another, byte by byte: the gap may begin and end within a word.
fn fill(words: &mut [u32], from: usize, to: usize)
    requires { (from ≤ to) × (to ≤ 4 * length words.old) }
    ensures { words.new ≡ store_all words.old from (replicate (to - from) 0) }
{
    for a in from..to {
        put_at(words, a, 0);
    }
}

// Puts the data bytes that digits write behind a record's first four bytes. By number: it is a byte's place in the line and in the words.
fn store_data(digits: &[u8], n: usize, words: &mut [u32], from: usize)
    requires { (from + n ≤ 4 * length words.old) × (n + n + 10 ≤ length digits.now) }
    ensures { words.new ≡ store_all words.old from (pair_bytes digits.now 4 n) }
{
    for i in 0..n {
        put_at(words, from + i, byte_at(digits, 4 + i) % 256);
    }
}

// The upper half of addresses, and the end of the last data record: what storing needs of a `Cursor`.
#[derive(Clone, Copy)]
pub struct Place {
    pub upper: u32,
    pub top: usize,
}

// Stores a record.
fn store_record(line: &[u8], h: Heading, p: Place, words: &mut [u32]) -> Place
    requires { RecordFits line.now (Some h) p words.old }
    ensures { (result ≡ place_after (Some h) p) × (words.new ≡ words_after line.now (Some h) p words.old) }
{
    match h {
        Heading::End => p,
        Heading::Base(upper) => Place { upper, ..p },
        Heading::Data(address, n) => {
            let from = 65536 * (p.upper as usize) + (address as usize);
            fill(words, p.top, from);
            store_data(&line[1..], n as usize, words, from);
            Place {
                top: from + (n as usize),
                ..p
            }
        }
    }
}

// Stores the words of a file that was judged good.
pub fn store(text: &[u8], words: &mut [u32])
    requires { ImageFits text.now words.old }
    ensures { Stores text.now words.old words.new }
{
    let mut p = Place { upper: 0, top: 0 };
    let mut rest = text;
    while let Some(end) = line_feed(rest) {
        let line = &rest[..end];
        p = match heading_of(line) {
            Some(h) => store_record(line, h, p, words),
            None => p,
        };
        rest = &rest[end..][1..];
    }
}
