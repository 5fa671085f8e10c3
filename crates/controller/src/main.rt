// The controller: starts the program of a named file, reads a minute a line from standard input, and prints an answer for each line when
// it is read (document 02, T-14).
#![tactic(auto)]

mod serving;

ghost use Rattle.io.specs.Counts.{IsPrefixLen};

use answer::{PROGRAM_WORDS, REGISTER_WORDS};
use minute_lines::{Held, Line};
use program::INPUT_BYTES;
use std::io;
use std::rt::{Env, Files};

// "starts a named file's little endian words, mask 255, memory 128 zeros"
fn start(rt: &(impl Input + Print + Eprint), program: &[u32]) {
    let mut registers = [0u32; REGISTER_WORDS];
    let mut memory = [0u8; serving::MEMORY];
    let machine = interpreter::start(255, &mut registers).unwrap();
    let held = Held {
        machine,
        kept: None,
        line: Line::Empty,
    };
    serving::serve(rt, program, &mut registers, &mut memory, held);
}

// Reads the file that the first argument names: how many bytes are at the start of the buffer. One that can't be opened or read is empty.
fn read_program(rt: &(impl Env + Files + Eprint), bytes: &mut [u8; INPUT_BYTES]) -> usize
    ensures { IsPrefixLen result bytes.new }
{
    let mut name = [0u8; 4096];
    let Ok(length) = rt.arg(1, &mut name) else {
        return 0;
    };
    let Ok(size) = files::read_file(rt, &name[..length], bytes) else {
        return 0;
    };
    size
}

fn main(rt: HostRuntime) {
    let mut bytes = [0u8; INPUT_BYTES];
    let size = read_program(&rt, &mut bytes);
    let mut program = [0u32; PROGRAM_WORDS];
    match program::words(&bytes[..size], &mut program) {
        Ok(count) => start(&rt, &program[..count]),
        Err(_) => {
            files::write_stream(
                &rt,
                &mut io::writer(&rt),
                b"write standard output",
                b"refused 1\n",
            );
        }
    }
}
