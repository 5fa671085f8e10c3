// The words of a source put into a buffer.
ghost use Rattle.std.specs.Prelude.{◌≤◌, ◌≡◌, length};
ghost use Rattle.expression.specs.Labels.{addresses};
ghost use Rattle.assembler.specs.Source.{lines_of, words_from};
ghost use Rattle.assembler.specs.Into.{over};
ghost use Rattle.assembler.specs.Walk.{line_word, stored, RoomFor, onwards, word_found};

use crate::lines::{instruction_word, line_end, words_in};
use expression::{Labels, Value};
use statement::{Line, line_of};

// The word of a line behind so many instructions, if it has one.
fn line_word(line: Option<Line>, before: usize) -> Option<u32>
    requires { before ≤ 65537 }
    ensures { word_found result ≡ line_word before line }
{
    match line {
        Some(Line::Code(i, f)) => match f.value {
            Value::Known(number) => instruction_word(i, f, before, number),
            Value::TooLarge | Value::Unknown => None,
        },
        _ => None,
    }
}

// A line's word put into a buffer behind k others, if it has one; how many there are then.
fn put_line(words: &mut [u32], line: Option<Line>, before: usize, k: usize) -> usize
    requires { (before ≤ 65537) × (k ≤ 65537) × RoomFor (line_word before line) k (length words.old) }
    ensures count { result ≡ onwards k (line_word before line) }
    ensures buffer { words.new ≡ stored k (line_word before line) words.old }
{
    match line_word(line, before) {
        None => k,
        Some(w) => {
            words[k] = w;
            k + 1
        }
    }
}

// The words of a source put into a buffer that has room for them.
pub fn put_words(labels: Labels, words: &mut [u32])
    requires { (length labels.source.now ≤ 65536)
        × (length (words_from (addresses labels) 0 (lines_of labels.source.now)) ≤ length words.old) }
    ensures { words.new
        ≡ over (words_from (addresses labels.entry) 0 (lines_of labels.entry.source.now)) words.old }
{
    let source = labels.source;
    let mut start = 0;
    let mut before = 0;
    let mut k = 0;
    while start <= source.len() {
        let end = line_end(source, start);
        let line = line_of(&source[start..end], labels);
        k = put_line(words, line, before, k);
        before += words_in(line);
        start = end + 1;
    }
}
