// The labels of a source: the place of each one's name in it, and its address.
ghost use Rattle.std.specs.Prelude.{◌+◌, ◌*◌, ◌≤◌, ◌<◌, ◌≡◌, length};
ghost use Rattle.statement.specs.Evaluation.{LabelInside};
ghost use Rattle.assembler.specs.Table.{Filled, entered};

use crate::lines::{labels_in, line_end, words_in};
use expression::Labels;
use statement::{Line, line_of};

// How many labels and words lines have.
#[derive(Clone, Copy, Debug, PartialEq, Eq)]
pub struct Counts {
    pub labels: usize,
    pub words: usize,
}

// A line's label entered into a table behind n others, if it has one.
fn enter(table: &mut [u32], line: Option<Line>, start: usize, n: usize, words: usize)
    requires { (2 * n + 1 < length table.old) × (n ≤ 65537) × (words ≤ 65537) × (start ≤ 65537) × LabelInside 65536 line }
    ensures { table.new ≡ entered line start n words table.old }
{
    if let Some(Line::Label(at)) = line {
        table[2 * n] = (start + at) as u32;
        table[2 * n + 1] = (4 * words) as u32;
    }
}

// The labels of a source entered into a table, which has room for as many as there can be: each takes a letter, a colon and an LF.
pub fn fill_labels(source: &[u8], table: &mut [u32]) -> Counts
    requires { (length source.now ≤ 65536) × (length table.old ≡ 43692) }
    ensures { Filled source.now table.new result }
{
    let mut start = 0;
    let mut n = 0;
    let mut words = 0;
    while start <= source.len() {
        let end = line_end(source, start);
        let none = Labels {
            source,
            table: &table[..0],
        };
        let line = line_of(&source[start..end], none);
        enter(table, line, start, n, words);
        n += labels_in(line);
        words += words_in(line);
        start = end + 1;
    }
    Counts { labels: n, words }
}
