// The words of a program's bytes.
ghost use Rattle.std.specs.Prelude.{◌≡◌, ◌*◌, ◌≤◌, ◌↔◌, length, IsErrOf, IsTrue};
ghost use Rattle.little_endian.specs.Numbers.{words_of};
ghost use Rattle.text.specs.Buffer.{wrote, writes};
ghost use Rattle.program.specs.Program.{bad_bytes, count_of, loads};

use answer::{PROGRAM_WORDS, Refusal};

// Room for a program's bytes: one more than the longest has, so that a longer input is seen.
pub const INPUT_BYTES: usize = 4 * PROGRAM_WORDS + 1;

// Whether so many bytes are no program.
pub fn bad_bytes(bytes: usize) -> bool
    ensures { result ≡ bad_bytes bytes }
{
    bytes % 4 != 0 || answer::bad_program(bytes / 4)
}

// The first words of an input, stored from the start on.
fn take_words(input: &[u8], count: usize, program: &mut [u32]) -> usize
    requires { (4 * count ≤ length input.now) × (count ≤ length program.old) }
    ensures { wrote result program.new ≡ writes program.old 0 (words_of count input.now) }
{
    for (k, word) in program[..count].iter_mut().enumerate() {
        *word = little_endian::word_at(input, 4 * k);
    }
    count
}

// Puts the words of a program's bytes at the start of the buffer, and answers their number. Bytes that are no program change nothing.
#[tactic(auto, unfolding(crate::specs::Program::loads))]
pub fn words(input: &[u8], program: &mut [u32; PROGRAM_WORDS]) -> Result<usize, Refusal>
    ensures written { wrote (count_of result) program.new ≡ loads input.now program.old }
    ensures refused { IsErrOf result Refusal.Program ↔ IsTrue (bad_bytes (length input.now)) }
{
    if bad_bytes(input.len()) {
        return Err(Refusal::Program);
    }
    Ok(take_words(input, input.len() / 4, program))
}
