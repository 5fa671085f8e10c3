// What records open with: their marks and place numbers, written and checked.
ghost use Rattle.std.specs.Prelude.{◌+◌, ◌≤◌, ◌≡◌, [], ◌∷◌, length};
ghost use Rattle.image_layout.specs.Join.{Grown};
ghost use Rattle.image_layout.specs.Layout.{places_of, places_length, Numbered, head_length, head_of, extent_of, start_of, stands_at, heads_of, heads_up_to};
ghost use Rattle.image.specs.Image.{AllNumbered};

use crate::bytes::word_at;
use image_layout::{
    Places, RecordRow, Shape, extent_of, head_stands, kind_at, record_size, row_of,
};

// The place numbers of record i stored from a place on; the next place.
fn put_places(places: Places, i: usize, buffer: &mut [u8], at: usize) -> usize
    requires { Numbered places i × (at + places_length places ≤ length buffer.old) }
    ensures { Grown buffer.old buffer.new at result (places_of places i) }
{
    match places {
        Places::Nothing => at,
        Places::ByThread => {
            buffer[at] = i as u8;
            at + 1
        }
        Places::ByRegister => {
            buffer[at] = (i / 64) as u8;
            buffer[at + 1] = (i % 64) as u8;
            at + 2
        }
        Places::ByBlock => {
            buffer[at] = (i % 256) as u8;
            buffer[at + 1] = (i / 256) as u8;
            at + 2
        }
    }
}

// What record i opens with stored from a place on; the next place.
pub fn put_head(row: RecordRow, i: usize, buffer: &mut [u8], at: usize) -> usize
    requires { Numbered row.places i × (at + head_length row.places ≤ length buffer.old) }
    ensures { Grown buffer.old buffer.new at result (head_of row i) }
{
    buffer[at] = row.first;
    buffer[at + 1] = row.second;
    put_places(row.places, i, buffer, at + 2)
}

// Whether four bytes stand at a place: they are compared as one word.
fn four_stand(four: [u8; 4], image: &[u8], at: usize) -> bool
    requires { at + 4 ≤ length image.now }
    ensures { result ≡ stands_at four image.now at }
{
    word_at(image, at) == u32::from_le_bytes(four)
}

// Whether record i of a row opens so at a place. Beside image_layout's: where there are four bytes they are compared as one word, for speed
// (docs/SPEED.md).
fn opens_so(row: RecordRow, i: usize, image: &[u8], at: usize) -> bool
    requires { Numbered row.places i × (at + head_length row.places ≤ length image.now) }
    ensures { result ≡ stands_at (head_of row i) image.now at }
{
    match row.places {
        Places::Nothing | Places::ByThread => head_stands(row, i, image, at),
        Places::ByRegister => {
            let four = [row.first, row.second, (i / 64) as u8, (i % 64) as u8];
            four_stand(four, image, at)
        }
        Places::ByBlock => {
            let four = [row.first, row.second, (i % 256) as u8, (i / 256) as u8];
            four_stand(four, image, at)
        }
    }
}

// Whether every record of a row that begins at a place opens so. By number: it is what a record's place numbers say.
fn heads_stand(row: RecordRow, image: &[u8], at: usize) -> bool
    requires { AllNumbered row × (at + extent_of row ≤ length image.now) }
    ensures { result ≡ heads_of row image.now at }
{
    let size = record_size(row);
    let mut p = at;
    for i in 0..row.count {
        if !opens_so(row, i, image, p) {
            return false;
        }
        p += size;
    }
    true
}

// Whether every mark and every place number of the first n kinds is right. By position: n may be any, and kind_at has a kind for each.
pub fn kinds_stand(shape: Shape, n: usize, image: &[u8]) -> bool
    requires { start_of shape n ≤ length image.now }
    ensures { result ≡ heads_up_to n shape image.now }
{
    let mut at: usize = 0;
    for position in 0..n {
        let kind = kind_at(position);
        if !heads_stand(row_of(shape, kind), image, at) {
            return false;
        }
        at += extent_of(shape, kind);
    }
    true
}
