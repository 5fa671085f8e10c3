// Exports the C library's calls on instruction words to C: each export is the call of crate capi_words of its name.
#![tactic(auto)]

ghost use Rattle.std.specs.Prelude.{◌≡◌};
ghost use Rattle.answer.specs.Left.{left};
ghost use Rattle.capi_words.specs.Words.{name_call, read_word, write_word};

// Reads a word into an instruction.
#[unsafe(no_mangle)]
pub extern "C" fn korvammel_read_word(word: u32, instruction: &mut [u32; 6]) -> u32
    ensures { left result instruction.new ≡ read_word word instruction.old }
{
    capi_words::korvammel_read_word(word, instruction)
}

// Writes an instruction into a word.
#[unsafe(no_mangle)]
pub extern "C" fn korvammel_write_word(instruction: &[u32; 6], word: &mut u32) -> u32
    ensures { left result word.new ≡ write_word instruction.now word.old }
{
    capi_words::korvammel_write_word(instruction, word)
}

// Puts an instruction's name, and answers its length. No instruction that has a word has a longer name than eight bytes.
#[unsafe(no_mangle)]
pub extern "C" fn korvammel_name(instruction: &[u32; 6], name: &mut [u8; 8]) -> usize
    ensures { left result name.new ≡ name_call instruction.now name.old }
{
    capi_words::korvammel_name(instruction, name)
}
