// The assembler's program: reads a program as text from standard input, and writes its words to standard output.
#![tactic(auto)]

use answer::PROGRAM_WORDS;

// One byte more than a source may have, so that a longer one is seen, and refused.
const ROOM: usize = 65537;

fn assemble(rt: &(impl Print + Eprint), source: &[u8]) {
    let mut words = [0u32; PROGRAM_WORDS];
    match assembler::assemble(source, &mut words) {
        Ok(count) => files::write_words(rt, &words[..count]),
        Err(refused) => files::refuse_at(rt, refused.line, refused.refusal.number()),
    }
}

fn main(rt: HostRuntime) {
    let mut source = [0u8; ROOM];
    let Ok(size) = files::read_stream(&rt, &mut rt.reader(), b"read the source", &mut source) else {
        return;
    };
    assemble(&rt, &source[..size]);
}
