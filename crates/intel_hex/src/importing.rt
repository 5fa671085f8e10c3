// Import: a file is judged whole, and then stored.
ghost use Rattle.std.specs.Prelude.{◌≡◌};
ghost use Rattle.intel_hex.specs.Import.{imported, import_into};

use crate::scan::judge;
use crate::storing::store;
use answer::{Refusal, RefusedLine};

// Puts the words of a file at the start of the buffer, and answers their number.
pub fn import(text: &[u8], words: &mut [u32]) -> Result<usize, RefusedLine>
    ensures { imported result words.new ≡ import_into text.now words.old }
{
    let n = judge(text)?;
    if program::bad_bytes(n) {
        return Err(RefusedLine {
            refusal: Refusal::Program,
            line: 0,
        });
    }
    if words.len() < n / 4 {
        return Err(RefusedLine {
            refusal: Refusal::ShortBuffer,
            line: 0,
        });
    }
    store(text, words);
    Ok(n / 4)
}
