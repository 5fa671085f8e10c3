// Words and instructions.
ghost use Rattle.std.specs.Prelude.{◌≡◌};
ghost use Rattle.answer.specs.Left.{left};
ghost use Rattle.capi_words.specs.Words.{list_of, numbers_in, read_word, write_word, name_call};

use answer::Refusal;
use fields::Numbers;
use isa::Unreadable;

// The six numbers stored.
fn put_numbers(n: Numbers, list: &mut [u32; 6])
    ensures { list.new ≡ list_of n }
{
    *list = [n.format, n.opcode, n.flags, n.first, n.second, n.third];
}

// The six numbers of a list.
fn numbers_in(list: &[u32; 6]) -> Numbers
    ensures { result ≡ numbers_in list.now }
{
    let &[format, opcode, flags, first, second, third] = list;
    Numbers {
        format,
        opcode,
        flags,
        first,
        second,
        third,
    }
}

// Reads a word into an instruction.
#[tactic(auto, unfolding(crate::specs::Words::read_word))]
pub fn korvammel_read_word(word: u32, instruction: &mut [u32; 6]) -> u32
    ensures { left result instruction.new ≡ read_word word instruction.old }
{
    match isa::read_word(word) {
        Ok(_) => {
            put_numbers(fields::unpack(word), instruction);
            0
        }
        Err(Unreadable::Undefined) => u32::from(Refusal::Undefined.number()),
        Err(Unreadable::NotFitted) => u32::from(Refusal::NotFitted.number()),
    }
}

// Writes an instruction into a word.
#[tactic(auto, unfolding(crate::specs::Words::write_word))]
pub fn korvammel_write_word(instruction: &[u32; 6], word: &mut u32) -> u32
    ensures { left result word.new ≡ write_word instruction.now word.old }
{
    let Some(found) = fields::find(numbers_in(instruction)) else {
        return u32::from(Refusal::NoWord.number());
    };
    *word = found.word;
    0
}

// Puts an instruction's name, and answers its length. No instruction that has a word has a longer name than eight bytes.
#[tactic(auto, unfolding(crate::specs::Words::name_call))]
pub fn korvammel_name(instruction: &[u32; 6], name: &mut [u8; 8]) -> usize
    ensures { left result name.new ≡ name_call instruction.now name.old }
{
    let Some(found) = fields::find(numbers_in(instruction)) else {
        return 0;
    };
    let spelled = names::name_of(found.instruction);
    name.copy_from_slice(&spelled.bytes[..8]);
    spelled.len
}
