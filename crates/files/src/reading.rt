// A stream or a file, read into a lent buffer as far as that goes. A buffer that has a byte more than what may be there shows what is longer.
ghost use Rattle.io.specs.Counts.{IsPrefixLen};
ghost use Rattle.files.specs.Reading.{size_of};

use crate::complaints::fail;
use std::io::Read;
use std::rt::Files;
use std::{fs, str};

// A read that failed, of which has been complained: how many bytes came before.
#[derive(Clone, Copy, Debug, PartialEq, Eq)]
pub struct Failed {
    pub size: usize,
}

// Reads until the buffer is full or the stream ends, and answers how many bytes are at its start; `failure` is what a complaint says
// can't be done.
pub fn read_stream<R: Read>(
    rt: &impl Eprint,
    stream: &mut R,
    failure: &[u8],
    buf: &mut [u8],
) -> Result<usize, Failed>
    ensures { IsPrefixLen (size_of result) buf.new }
{
    let mut size = 0;
    // No `for`: a turn takes as many bytes as the stream gives.
    while size < buf.len() {
        match stream.read(&mut buf[size..]) {
            Ok(0) => break,
            Ok(n) => size += n,
            Err(error) => {
                fail(rt, failure, error);
                return Err(Failed { size });
            }
        }
    }
    Ok(size)
}

// Reads a file by its name: "in any program a file that will not open reads as empty" (document 02, T-10).
pub fn read_file(rt: &(impl Files + Eprint), name: &[u8], buf: &mut [u8]) -> Result<usize, Failed>
    ensures { IsPrefixLen (size_of result) buf.new }
{
    // (std opens no file whose name is not text)
    let name = str::from_utf8(name).unwrap_or("");
    let Ok(mut file) = fs::open(rt, name) else {
        return Ok(0);
    };
    read_stream(rt, &mut file, b"read the file", buf)
}
