// The lister: reads a program's words from standard input and prints its listing.
#![tactic(auto)]

use listing::LONGEST;
use program::INPUT_BYTES;
use std::io;

fn main(rt: HostRuntime) {
    let mut input = [0u8; INPUT_BYTES];
    let Ok(size) = files::read_stream(&rt, &mut rt.reader(), b"read standard input", &mut input)
    else {
        return;
    };
    let mut text = [0u8; LONGEST];
    let length = listing::list(&input[..size], &mut text);
    files::write_stream(
        &rt,
        &mut io::writer(&rt),
        b"write standard output",
        &text[..length],
    );
}
