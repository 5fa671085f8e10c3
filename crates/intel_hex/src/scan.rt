// A file judged: line by line, before anything is stored.
ghost use Rattle.std.specs.Prelude.{◌≡◌, ◌==◌, ◌+◌, ◌≤◌, length, drop, position};
ghost use Rattle.intel_hex.specs.File.{image_of};
ghost use Rattle.intel_hex.specs.Record.{record_of};
ghost use Rattle.intel_hex.specs.Scan.{heading, line_length, advanced, judgement, judged};

use crate::record::{Heading, heading_of};
use answer::{Refusal, RefusedLine};

// Where the first line of a text ends: at its first LF.
pub fn line_feed(text: &[u8]) -> Option<usize>
    ensures { result ≡ position (λ c. c == 10) text.now }
{
    text.iter().position(|&c| c == b'\n')
}

// The upper half of addresses, the end of the last data record, and whether the end record was there: a flag beside the place, since a line
// behind the end is refused with a number of its own, and the length that was reached is still asked for.
#[derive(Clone, Copy)]
pub struct Cursor {
    pub upper: u32,
    pub top: usize,
    pub ended: bool,
}

// One record more, that of a line.
#[tactic(auto, unfolding(crate::specs::Scan::advanced))]
fn advance(c: Cursor, line: &[u8]) -> Result<Cursor, Refusal>
    ensures { result ≡ advanced c (heading (record_of line.now)) }
{
    match heading_of(line) {
        None => Err(Refusal::HexRecord),
        Some(Heading::End) => Ok(Cursor { ended: true, ..c }),
        Some(Heading::Base(upper)) => Ok(Cursor {
            upper,
            ended: false,
            ..c
        }),
        Some(Heading::Data(address, n)) => {
            let from = 65536 * (c.upper as usize) + (address as usize);
            if from < c.top || 65536 < address as usize + (n as usize) {
                return Err(Refusal::HexOrder);
            }
            Ok(Cursor {
                top: from + (n as usize),
                ended: false,
                ..c
            })
        }
    }
}

// How many bytes a file says, or the first line that it is refused at.
pub fn judge(text: &[u8]) -> Result<usize, RefusedLine>
    ensures { judgement result ≡ judged (image_of text.now) }
{
    let mut c = Cursor {
        upper: 0,
        top: 0,
        ended: false,
    };
    let mut line = 1;
    let mut rest = text;
    while !rest.is_empty() {
        if c.ended {
            return Err(RefusedLine {
                refusal: Refusal::HexEnd,
                line,
            });
        }
        let Some(end) = line_feed(rest) else {
            return Err(RefusedLine {
                refusal: Refusal::HexRecord,
                line,
            });
        };
        c = match advance(c, &rest[..end]) {
            Ok(next) => next,
            Err(refusal) => return Err(RefusedLine { refusal, line }),
        };
        line += 1;
        rest = &rest[end + 1..];
    }
    if c.ended {
        return Ok(c.top);
    }
    Err(RefusedLine {
        refusal: Refusal::HexEnd,
        line,
    })
}
