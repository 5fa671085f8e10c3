// The lines of a source, one after the other.
ghost use Rattle.std.specs.Prelude.{◌+◌, ◌*◌, ◌%◌, ◌^◌, ◌≤◌, ◌≡◌, length, take, drop};
ghost use Rattle.answer.specs.Refusal.{number_of};
ghost use Rattle.expression.specs.Labels.{addresses};
ghost use Rattle.token.specs.Token.{leading_word};
ghost use Rattle.statement.specs.Meaning.{word_in};
ghost use Rattle.statement.specs.Evaluation.{line_value, LabelInside};
ghost use Rattle.assembler.specs.Source.{first, texts_of, name_number, unknown_in, value_number, lines_of};
ghost use Rattle.assembler.specs.Walk.{first_text, rule_of, entries, instruction_word, line_number_of};
ghost use Rattle.assembler.specs.Walk.{verdict_of, labels_in, words_in, TableAt, TableFor};

use answer::{Refusal, RefusedLine};
use expression::{Labels, Value, value_of_label};
use isa::Instruction;
use statement::{Line, OperandValues, line_of, up_to, word_of};
use token::past_run;

// A pass over the lines, by what it refuses. The walk is one; what a pass does with a line is told apart in `judge` alone, and the rules
// of document 02 are by this same choice (`rule_of`).
#[derive(Clone, Copy, Debug, PartialEq, Eq)]
pub enum Pass {
    Texts,
    Labels,
    Words,
}

// The end of the line that begins at a place.
pub fn line_end(source: &[u8], start: usize) -> usize
    requires { start ≤ length source.now }
    ensures { result ≡ start + length (first_text (drop start source.now)) }
{
    start + up_to(&source[start..], b'\n').len()
}

// How many labels a line has.
pub fn labels_in(line: Option<Line>) -> usize
    ensures { result ≡ labels_in line }
{
    match line {
        Some(Line::Label(_)) => 1,
        _ => 0,
    }
}

// How many words a line has.
pub fn words_in(line: Option<Line>) -> usize
    ensures { result ≡ words_in line }
{
    match line {
        Some(Line::Code(..)) => 1,
        _ => 0,
    }
}

// Refuses a label, behind n labels of a table.
fn judge_label(labels: Labels, n: usize, text: &[u8], start: usize) -> Result<(), Refusal>
    requires { (2 * n ≤ length labels.table.now) × (start ≤ length text.now) }
    ensures { number_of result
        ≡ name_number (entries labels.entry.source.now (take (2 * n) labels.entry.table.now)) (leading_word (drop start text.now)) }
{
    if 256 <= n {
        return Err(Refusal::Label);
    }
    let stop = past_run(text, start);
    let earlier = Labels {
        table: &labels.table[..2 * n],
        ..labels
    };
    match value_of_label(earlier, &text[start..stop]) {
        Value::Known(_) | Value::TooLarge => Err(Refusal::Label),
        Value::Unknown => Ok(()),
    }
}

// Refuses an instruction for its labels.
fn judge_use(f: OperandValues) -> Result<(), Refusal>
    ensures { number_of result ≡ unknown_in f.value }
{
    match f.value {
        Value::Known(_) | Value::TooLarge => Ok(()),
        Value::Unknown => Err(Refusal::Label),
    }
}

// The word of an instruction behind so many words, for a number.
pub fn instruction_word(i: Instruction, f: OperandValues, words: usize, number: u64) -> Option<u32>
    requires { words ≤ 65537 }
    ensures { word_in result ≡ instruction_word i f words number }
{
    word_of(i, f, (number % 0x100000000) as u32, (4 * words) as u32)
}

// Refuses an instruction behind so many words.
fn judge_word(i: Instruction, f: OperandValues, words: usize) -> Result<(), Refusal>
    requires { words ≤ 65537 }
    ensures { number_of result ≡ value_number (instruction_word i f words) f.value }
{
    match f.value {
        Value::Known(number) => match instruction_word(i, f, words, number) {
            Some(_) => Ok(()),
            None => Err(Refusal::Source),
        },
        Value::TooLarge => Err(Refusal::TooLarge),
        Value::Unknown => Err(Refusal::Label),
    }
}

// Refuses a line in a pass, behind n labels and so many words.
fn judge(
    pass: Pass,
    line: Option<Line>,
    text: &[u8],
    labels: Labels,
    n: usize,
    words: usize,
) -> Result<(), Refusal>
    requires { TableAt pass labels.table.now n × LabelInside (length text.now) line × (words ≤ 65537) }
    ensures { number_of result
        ≡ line_number_of pass (entries labels.entry.source.now (take (2 * n) labels.entry.table.now)) words (line_value text.now line) }
{
    match (pass, line) {
        (Pass::Texts, None) => Err(Refusal::Source),
        (Pass::Labels, Some(Line::Label(start))) => judge_label(labels, n, text, start),
        (Pass::Labels, Some(Line::Code(_, f))) => judge_use(f),
        (Pass::Words, Some(Line::Code(i, f))) => judge_word(i, f, words),
        _ => Ok(()),
    }
}

// Refuses the first line that a pass refuses.
pub fn first_refused(labels: Labels, pass: Pass) -> Result<(), RefusedLine>
    requires { (length labels.source.now ≤ 65536) × TableFor pass labels.source.now labels.table.now }
    ensures { verdict_of result
        ≡ first (rule_of pass (addresses labels.entry)) (texts_of labels.entry.source.now) }
{
    let source = labels.source;
    let mut start = 0;
    let mut before = 0;
    let mut n = 0;
    let mut words = 0;
    // By the place where a line begins, as `fill_labels` goes, which holds labels by it.
    while start <= source.len() {
        let end = line_end(source, start);
        let text = &source[start..end];
        let line = line_of(text, labels);
        if let Err(refusal) = judge(pass, line, text, labels, n, words) {
            return Err(RefusedLine {
                refusal,
                line: before + 1,
            });
        }
        n += labels_in(line);
        words += words_in(line);
        start = end + 1;
        before += 1;
    }
    Ok(())
}
