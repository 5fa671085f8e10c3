// The input served as it comes: a read takes what is there, be it part of a line or many, and each line is answered at its end.
use answer::REGISTER_WORDS;
use minute_lines::{Held, LONGEST};
use std::io;
use std::io::Read;

// The bytes of memory.
pub const MEMORY: usize = 128;

// The bytes of a read.
const READ: usize = 4096;

fn print(rt: &(impl Print + Eprint), text: &[u8]) -> bool {
    files::write_stream(rt, &mut io::writer(rt), b"write standard output", text)
}

// A byte of input, and the text that it calls for: what is held then, or nothing where that text could not be written.
fn serve_byte(
    rt: &(impl Print + Eprint),
    program: &[u32],
    registers: &mut [u32; REGISTER_WORDS],
    memory: &mut [u8; MEMORY],
    held: Held,
    byte: u8,
) -> Option<Held> {
    let mut out = [0u8; LONGEST];
    let step = minute_lines::take_byte(program, registers, memory, held, byte, &mut out);
    if step.printed == 0 {
        return Some(step.held);
    }
    if print(rt, &out[..step.printed]) {
        Some(step.held)
    } else {
        None
    }
}

// The end of the input.
fn serve_end(
    rt: &(impl Print + Eprint),
    program: &[u32],
    registers: &mut [u32; REGISTER_WORDS],
    memory: &mut [u8; MEMORY],
    held: Held,
) {
    let mut out = [0u8; LONGEST];
    let step = minute_lines::take_end(program, registers, memory, held, &mut out);
    print(rt, &out[..step.printed]);
}

fn serve_bytes(
    rt: &(impl Print + Eprint),
    program: &[u32],
    registers: &mut [u32; REGISTER_WORDS],
    memory: &mut [u8; MEMORY],
    mut held: Held,
    bytes: &[u8],
) -> Option<Held> {
    for byte in bytes {
        held = serve_byte(rt, program, registers, memory, held, *byte)?;
    }
    Some(held)
}

// One read: nothing is held behind the last byte, nor where one can't be read.
fn serve_read<R: Read>(
    rt: &(impl Print + Eprint),
    input: &mut R,
    program: &[u32],
    registers: &mut [u32; REGISTER_WORDS],
    memory: &mut [u8; MEMORY],
    held: Held,
) -> Option<Held> {
    let mut buf = [0u8; READ];
    match input.read(&mut buf) {
        Ok(0) => {
            serve_end(rt, program, registers, memory, held);
            None
        }
        Ok(n) => serve_bytes(rt, program, registers, memory, held, &buf[..n]),
        Err(error) => {
            files::fail(rt, b"read standard input", error);
            None
        }
    }
}

// All of the input. A proved loop has to end, and nothing says that an input does: it counts to a number that no night uses up.
pub fn serve(
    rt: &(impl Input + Print + Eprint),
    program: &[u32],
    registers: &mut [u32; REGISTER_WORDS],
    memory: &mut [u8; MEMORY],
    mut held: Held,
) {
    let mut input = rt.reader();
    for _ in 0..u64::MAX {
        let Some(next) = serve_read(rt, &mut input, program, registers, memory, held) else {
            return;
        };
        held = next;
    }
}
