// The exporter: reads a program's words from standard input, and writes it in Intel HEX to standard output.
#![tactic(auto)]

use answer::PROGRAM_WORDS;
use intel_hex::LONGEST;
use program::INPUT_BYTES;
use std::io;

fn export(rt: &(impl Print + Eprint), words: &[u32]) {
    let mut text = [0u8; LONGEST];
    match intel_hex::export(words, &mut text) {
        Ok(length) => {
            files::write_stream(rt, &mut io::writer(rt), b"write the file", &text[..length]);
        }
        Err(refusal) => files::refuse(rt, refusal.number()),
    }
}

fn main(rt: HostRuntime) {
    let mut bytes = [0u8; INPUT_BYTES];
    let Ok(size) = files::read_stream(&rt, &mut rt.reader(), b"read the program", &mut bytes) else {
        return;
    };
    let mut words = [0u32; PROGRAM_WORDS];
    match program::words(&bytes[..size], &mut words) {
        Ok(count) => export(&rt, &words[..count]),
        Err(refusal) => files::refuse(&rt, refusal.number()),
    }
}
