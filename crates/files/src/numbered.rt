// A stream that the command opens beside the standard ones, by the name that the system has for its number, as "/dev/fd/3".
ghost use Rattle.io.specs.Counts.{IsPrefixLen};
ghost use Rattle.files.specs.Reading.{size_of};

use crate::complaints::fail;
use crate::reading::{Failed, read_stream};
use crate::writing::{write_stream, write_synced};
use std::fs;
use std::fs::OpenOptions;
use std::rt::Files;

// Reads until the buffer is full or the stream ends. One that can't be opened is one that can't be read.
pub fn read_numbered(
    rt: &(impl Files + Eprint),
    name: &str,
    failure: &[u8],
    buf: &mut [u8],
) -> Result<usize, Failed>
    ensures { IsPrefixLen (size_of result) buf.new }
{
    match fs::open(rt, name) {
        Ok(mut file) => read_stream(rt, &mut file, failure, buf),
        Err(error) => {
            fail(rt, failure, error);
            Err(Failed { size: 0 })
        }
    }
}

// Writes to such a stream, and answers whether all was written.
pub fn write_numbered(
    rt: &(impl Files + Eprint),
    name: &str,
    failure: &[u8],
    bytes: &[u8],
) -> bool {
    match OpenOptions::new().write(true).open(rt, name) {
        Ok(mut file) => write_stream(rt, &mut file, failure, bytes),
        Err(error) => {
            fail(rt, failure, error);
            false
        }
    }
}

// Writes to such a stream, and waits until the bytes have reached their device. Beside the one above: they differ in one call, and a closure
// over it would name the type of the opened file.
pub fn write_numbered_synced(
    rt: &(impl Files + Eprint),
    name: &str,
    failure: &[u8],
    bytes: &[u8],
) -> bool {
    match OpenOptions::new().write(true).open(rt, name) {
        Ok(mut file) => write_synced(rt, &mut file, failure, bytes),
        Err(error) => {
            fail(rt, failure, error);
            false
        }
    }
}
