// The lines of a page of rows.
ghost use Rattle.std.specs.Prelude.{◌≤◌, ◌≡◌, length, take};
ghost use Rattle.text.specs.Buffer.{wrote, writes};
ghost use Rattle.text.specs.Parts.{puts_all};
ghost use Rattle.trace_lines.specs.Lines.{page_parts, page_text};

use crate::line::put_line;
use trace::{PAGE_ROWS, Row};

// Puts the lines of rows one behind the other, where so many issues were made before them.
#[tactic(auto, unfolding(crate::specs::Lines::page_parts))]
fn put_page(out: &mut [u8], made: u32, rows: &[Row]) -> usize
    requires { length rows.now ≤ 64 }
    ensures { wrote result out.new ≡ puts_all (wrote 0 out.old) (page_parts made rows.now) }
{
    let mut at = 0;
    for (i, row) in rows.iter().enumerate() {
        at = put_line(out, at, made as u64 + i as u64 + 1, *row);
    }
    at
}

// A page is no longer: no line has more than 106 bytes.
pub const PAGE_LONGEST: usize = 106 * PAGE_ROWS;

// Puts the lines of the first rows of a page at the start of the buffer, where so many issues were made before them, and answers their
// length.
pub fn write_page(
    made: u32,
    rows: [Row; PAGE_ROWS],
    count: u32,
    out: &mut [u8; PAGE_LONGEST],
) -> usize
    ensures { wrote result out.new ≡ writes out.old 0 (page_text made (take count rows)) }
{
    let count = count as usize;
    if PAGE_ROWS < count {
        put_page(out, made, &rows)
    } else {
        put_page(out, made, &rows[..count])
    }
}
