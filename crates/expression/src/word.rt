// Words as terms: numbers and labels.
ghost use Rattle.std.specs.Prelude.{◌+◌, ◌≤◌, ◌≡◌, length, drop};
ghost use Rattle.token.specs.Token.{leading_word};
ghost use Rattle.expression.specs.Grammar.{word_term};
ghost use Rattle.expression.specs.Label.{same};
ghost use Rattle.expression.specs.Labels.{addresses};
ghost use Rattle.expression.specs.Reading.{term_valued, term_value_of, TermInRange, InRange};
ghost use Rattle.expression.specs.Value.{value_term, label_value, bounded, bias};

use crate::value::{Value, ZERO, bound};
use token::{is_label, number_of, past_run};

// The labels of a source: the source, and for each label the place of its name there and its address. Two numbers in turn and no pairs: the
// definition `entries` reads a table so.
#[derive(Clone, Copy, Debug, PartialEq, Eq)]
pub struct Labels<'a> {
    pub source: &'a [u8],
    pub table: &'a [u32],
}

// The word that stands in a text from a place on.
fn word_from(text: &[u8], place: usize) -> &[u8]
    ensures { result.now ≡ leading_word (drop place text.now) }
{
    if text.len() < place {
        return &text[..0];
    }
    &text[place..past_run(text, place)]
}

// Whether two words are the same. Apart, so that an edit of the compare is refused for what it answers.
#[tactic(auto, using(crate::proofs::Named::same_is), unfolding(crate::specs::Label::same))]
fn same_bytes(a: &[u8], b: &[u8]) -> bool
    ensures { result ≡ same a.now b.now }
{
    a == b
}

// Whether a word is the one that stands in the source from a place on. The first byte is looked at before the others: most end there.
fn same_word(source: &[u8], place: usize, word: &[u8]) -> bool
    ensures { result ≡ same (leading_word (drop place source.now)) word.now }
{
    match (source.get(place), word.first()) {
        (Some(a), Some(b)) if a != b => false,
        _ => same_bytes(word_from(source, place), word),
    }
}

// The value of the label that a word is.
pub fn value_of_label(labels: Labels, word: &[u8]) -> Value
    ensures value { result ≡ label_value (addresses labels.entry word.now) }
    ensures held { InRange result }
{
    let mut rest = labels.table;
    while let [place, address, others @ ..] = rest {
        if same_word(labels.source, *place as usize, word) {
            return bound_up(*address as usize);
        }
        rest = others;
    }
    Value::Unknown
}

// A number that is not negative, with 2^32 added to it.
fn bound_up(n: usize) -> Value
    ensures value { result ≡ bounded (bias + n) }
    ensures held { InRange result }
{
    if 0x80000000 < n {
        return Value::TooLarge;
    }
    bound(ZERO + n as u64)
}

// A word as a term.
pub fn word_term(labels: Labels, word: &[u8]) -> Option<Value>
    ensures value { term_valued result
        ≡ term_value_of (value_term (addresses labels.entry) 0)
        (word_term word.now) }
    ensures held { TermInRange result }
{
    match number_of(word) {
        Some(n) => Some(bound_up(n as usize)),
        None if is_label(word) => Some(value_of_label(labels, word)),
        None => None,
    }
}
