// The bytes of a program's words.
ghost use Rattle.std.specs.Prelude.{◌≡◌, ◌*◌, ◌≤◌, ◌↔◌, length, IsErrOf, IsTrue};
ghost use Rattle.little_endian.specs.Numbers.{number_bytes, bytes_of};
ghost use Rattle.text.specs.Buffer.{wrote, writes};
ghost use Rattle.answer.specs.Refusal.{bad_program};
ghost use Rattle.program.specs.Program.{count_of, saves};

use answer::{PROGRAM_WORDS, Refusal};
use text::put_text;

// The bytes of the longest program.
pub const PROGRAM_BYTES: usize = 4 * PROGRAM_WORDS;

// The bytes of a word, the lowest first.
#[tactic(auto, using(little_endian::proofs::Numbers::four_bytes))]
fn bytes_of(word: u32) -> [u8; 4]
    ensures { result ≡ number_bytes 4 word }
{
    word.to_le_bytes()
}

// Puts the bytes of words one behind the other, from the start on.
fn put_words(words: &[u32], out: &mut [u8]) -> usize
    requires { 4 * length words.now ≤ length out.old }
    ensures { wrote result out.new ≡ writes out.old 0 (bytes_of (length words.now) words.now) }
{
    let mut at = 0;
    for word in words {
        at = put_text(out, at, &bytes_of(*word));
    }
    at
}

// Puts the bytes of a program's words at the start of the buffer, and answers their number. Words that are no program change nothing.
#[tactic(auto, unfolding(crate::specs::Program::saves))]
pub fn bytes(words: &[u32], out: &mut [u8; PROGRAM_BYTES]) -> Result<usize, Refusal>
    ensures written { wrote (count_of result) out.new ≡ saves words.now out.old }
    ensures refused { IsErrOf result Refusal.Program ↔ IsTrue (bad_program (length words.now)) }
{
    if answer::bad_program(words.len()) {
        return Err(Refusal::Program);
    }
    Ok(put_words(words, out))
}
