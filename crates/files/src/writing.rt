// Bytes written to a stream or a file, all of them; what could not be written is complained of.
use crate::complaints::{complain, fail};
use program::PROGRAM_BYTES;
use std::fmt::InlineText;
use std::fs::{OpenFile, OpenOptions};
use std::io::Write;
use std::rt::Files;
use std::{fs, io, str};

// The longest name that a file may have.
const NAME: usize = 4096;

const PART: usize = 5;

// Whether a call succeeded; where it did not, that is complained of: `failure` is what can't be done.
fn succeeded(rt: &impl Eprint, failure: &[u8], done: io::Result<()>) -> bool {
    match done {
        Ok(()) => true,
        Err(error) => {
            fail(rt, failure, error);
            false
        }
    }
}

// Writes to a stream, and answers whether all was written; `failure` is what a complaint says can't be done.
pub fn write_stream<W: Write>(
    rt: &impl Eprint,
    stream: &mut W,
    failure: &[u8],
    bytes: &[u8],
) -> bool {
    succeeded(rt, failure, stream.write_all(bytes))
}

// Writes the bytes of a program's words to standard output.
pub fn write_words(rt: &(impl Print + Eprint), words: &[u32]) {
    let mut bytes = [0u8; PROGRAM_BYTES];
    if let Ok(length) = program::bytes(words, &mut bytes) {
        write_stream(
            rt,
            &mut io::writer(rt),
            b"write the program",
            &bytes[..length],
        );
    }
}

fn write_to_device<F: Write + OpenFile>(stream: &mut F, bytes: &[u8]) -> io::Result<()> {
    stream.write_all(bytes)?;
    stream.sync_all()
}

// Writes to a stream, and waits until the bytes have reached their device.
pub fn write_synced<F: Write + OpenFile>(
    rt: &impl Eprint,
    stream: &mut F,
    failure: &[u8],
    bytes: &[u8],
) -> bool {
    succeeded(rt, failure, write_to_device(stream, bytes))
}

// Makes a new file of these bytes; one that can't be written whole is removed again.
fn write_new(rt: &(impl Files + Eprint), part: &str, bytes: &[u8]) -> bool {
    match OpenOptions::new()
        .write(true)
        .create_new(true)
        .open(rt, part)
    {
        Ok(mut file) => {
            if write_synced(rt, &mut file, b"write the file", bytes) {
                return true;
            }
        }
        Err(error) => {
            fail(rt, b"make a file beside the one to write", error);
            return false;
        }
    }
    let _ = fs::remove_file(rt, part);
    false
}

// Writes a new file and gives it its name; where one of these fails, neither stays.
fn write_part(rt: &(impl Files + Eprint), part: &str, name: &str, bytes: &[u8]) -> bool {
    if !write_new(rt, part, bytes) {
        return false;
    }
    let named = succeeded(rt, b"give the file its name", fs::rename(rt, part, name));
    if !named {
        let _ = fs::remove_file(rt, part);
    }
    named
}

// Writes a file whole or not at all: under its name with .part behind it, which becomes its name once all is written.
pub fn write_file(rt: &(impl Files + Eprint), name: &[u8], bytes: &[u8]) -> bool {
    if NAME - PART < name.len() {
        complain(rt, b"can't write the file: its name is too long");
        return false;
    }
    let Ok(name) = str::from_utf8(name) else {
        complain(rt, b"can't write the file: its name is no text");
        return false;
    };
    let part = InlineText::<NAME>::of(format_args!("{name}.part"));
    write_part(rt, part.as_str(), name, bytes)
}
