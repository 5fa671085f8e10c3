// What a record opens with: its mark and place numbers, checked.
ghost use Rattle.std.specs.Prelude.{◌+◌, ◌≤◌, ◌≡◌, length};
ghost use Rattle.image_layout.specs.Layout.{places_of, places_length, head_length, head_of, stands_at, head_stands};

use crate::layout::{Places, RecordRow, head_length};

// Whether the place numbers of record i stand at a place. By division: the definition `places_of` says the two bytes of a number so.
fn places_stand(places: Places, i: usize, image: &[u8], at: usize) -> bool
    requires { at + places_length places ≤ length image.now }
    ensures { result ≡ stands_at (places_of places i) image.now at }
{
    match places {
        Places::Nothing => true,
        Places::ByThread => image[at] as usize == i,
        Places::ByRegister => (image[at] as usize == i / 64) & (image[at + 1] as usize == i % 64),
        Places::ByBlock => (image[at] as usize == i % 256) & (image[at + 1] as usize == i / 256),
    }
}

// Whether record i opens with its mark and place numbers, where there is room for them.
fn opens_with(row: RecordRow, i: usize, image: &[u8], at: usize) -> bool
    requires { at + head_length row.places ≤ length image.now }
    ensures { result ≡ stands_at (head_of row i) image.now at }
{
    (image[at] == row.first)
        & (image[at + 1] == row.second)
        & places_stand(row.places, i, image, at + 2)
}

// Whether record i stands at a place: not where the bytes end before its mark and place numbers do.
pub fn head_stands(row: RecordRow, i: usize, image: &[u8], at: usize) -> bool
    ensures { result ≡ head_stands row i image.now at }
{
    let length = head_length(row.places);
    length <= image.len() && at <= image.len() - length && opens_with(row, i, image, at)
}
