// The line that says how many entries a run looked at.
ghost use Rattle.std.specs.Prelude.{◌≡◌};
ghost use Rattle.text.specs.Buffer.{wrote, writes};
ghost use Rattle.text.specs.Parts.{puts_all};
ghost use Rattle.report.specs.Report.{looks_parts, looks_line};

use text::{put_long, put_text};

// Puts the parts of the line one behind the other.
#[tactic(auto, unfolding(isa::specs::Text::bytes))]
fn put_looks(out: &mut [u8], looks: u64) -> usize
    ensures { wrote result out.new ≡ puts_all (wrote 0 out.old) (looks_parts looks) }
{
    let at = put_text(out, 0, b"looks ");
    let at = put_long(out, at, looks);
    put_text(out, at, b"\n")
}

// The longest line: a number of 64 bits has at most twenty digits.
pub const LOOKS_LONGEST: usize = 27;

// Puts the line at the start of the buffer, and answers its length.
pub fn write_looks(looks: u64, out: &mut [u8; LOOKS_LONGEST]) -> usize
    ensures { wrote result out.new ≡ writes out.old 0 (looks_line looks) }
{
    put_looks(out, looks)
}
