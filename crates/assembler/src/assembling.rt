// A source assembled into a buffer of words.
ghost use Rattle.std.specs.Prelude.{◌≤◌, ◌≡◌, length};
ghost use Rattle.expression.specs.Labels.{addresses};
ghost use Rattle.answer.specs.Refusal.{row_of};
ghost use Rattle.assembler.specs.Source.{at-line, lines_of, labels_of, count, address_among, words_from, in_room, of_lines, of_texts};
ghost use Rattle.assembler.specs.Into.{into, assembled_into, outcome_of, refused_at};
ghost use Rattle.assembler.specs.Walk.{entries};

use crate::labels::fill_labels;
use crate::lines::{Pass, first_refused};
use crate::putting::put_words;
use answer::{Refusal, RefusedLine, bad_program};
use expression::Labels;

// A refusal that names no line.
fn no_line(refusal: Refusal) -> RefusedLine
    ensures { refused_at result ≡ at-line (row_of refusal) 0 }
{
    RefusedLine { refusal, line: 0 }
}

// So many words of a source put into a buffer, if they are a program and it has room.
fn finish(labels: Labels, count: usize, words: &mut [u32]) -> Result<usize, RefusedLine>
    requires { (length labels.source.now ≤ 65536)
        × (count ≡ length (words_from (addresses labels) 0 (lines_of labels.source.now))) }
    ensures { outcome_of result words.new
        ≡ into
        (in_room (length words.old)
        (words_from (addresses labels.entry) 0 (lines_of labels.entry.source.now)))
        words.old }
{
    if bad_program(count) {
        return Err(no_line(Refusal::Program));
    }
    if words.len() < count {
        return Err(no_line(Refusal::ShortBuffer));
    }
    put_words(labels, words);
    Ok(count)
}

// The lines of a source, of which none is malformed, by the table of its labels.
fn assemble_lines(
    labels: Labels,
    instructions: usize,
    words: &mut [u32],
) -> Result<usize, RefusedLine>
    requires { (length labels.source.now ≤ 65536)
        × (entries labels.source.now labels.table.now ≡ labels_of (lines_of labels.source.now))
        × (instructions ≡ count (lines_of labels.source.now)) }
    ensures { outcome_of result words.new
        ≡ into
        (of_lines (addresses labels.entry) (length words.old) (lines_of labels.entry.source.now))
        words.old }
{
    first_refused(labels, Pass::Labels)?;
    first_refused(labels, Pass::Words)?;
    finish(labels, instructions, words)
}

// The lines of a source, of which none is malformed.
fn assemble_labelled(source: &[u8], words: &mut [u32]) -> Result<usize, RefusedLine>
    requires { length source.now ≤ 65536 }
    ensures { outcome_of result words.new
        ≡ into
        (of_lines (address_among (labels_of (lines_of source.now))) (length words.old) (lines_of source.now))
        words.old }
{
    let mut table = [0; 43692];
    let counts = fill_labels(source, &mut table);
    let labels = Labels {
        source,
        table: &table[..2 * counts.labels],
    };
    assemble_lines(labels, counts.words, words)
}

// A source of a length that is allowed. The length stands in the contracts and not in `Labels`: expressions and statements take labels of any
// source.
fn assemble_texts(source: &[u8], words: &mut [u32]) -> Result<usize, RefusedLine>
    requires { length source.now ≤ 65536 }
    ensures { outcome_of result words.new
        ≡ into (of_texts (length words.old) source.now) words.old }
{
    let none = Labels { source, table: &[] };
    first_refused(none, Pass::Texts)?;
    assemble_labelled(source, words)
}

// The words of a source, put into a buffer.
#[tactic(auto, unfolding(crate::specs::Into::assembled_into, crate::specs::Source::assembly))]
pub fn assemble(source: &[u8], words: &mut [u32]) -> Result<usize, RefusedLine>
    ensures { outcome_of result words.new ≡ assembled_into source.now words.old }
{
    if 65536 < source.len() {
        return Err(no_line(Refusal::Source));
    }
    assemble_texts(source, words)
}
