// The importer: reads a program in Intel HEX from standard input, and writes its words to standard output.
#![tactic(auto)]

use answer::PROGRAM_WORDS;
use program::PROGRAM_BYTES;

// The most bytes of a file that are taken: 16 for each byte of the longest program, where a record of one byte and its CR LF are 15. The
// room has one more, so that a longer file is seen.
const LONGEST: usize = 16 * PROGRAM_BYTES;

const ROOM: usize = LONGEST + 1;

fn import(rt: &(impl Print + Eprint), text: &[u8]) {
    let mut words = [0u32; PROGRAM_WORDS];
    match intel_hex::import(text, &mut words) {
        Ok(count) => files::write_words(rt, &words[..count]),
        Err(refused) => files::refuse_at(rt, refused.line, refused.refusal.number()),
    }
}

fn main(rt: HostRuntime) {
    let mut text = [0u8; ROOM];
    let Ok(size) = files::read_stream(&rt, &mut rt.reader(), b"read the file", &mut text) else {
        return;
    };
    if LONGEST < size {
        files::complain(
            &rt,
            b"can't import the file: it has more than 1,048,576 bytes",
        );
        return;
    }
    import(&rt, &text[..size]);
}
