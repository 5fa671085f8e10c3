// The tokens of a line.
ghost use Rattle.std.specs.Prelude.{◌+◌, ◌≡◌, length, drop};
ghost use Rattle.token.specs.Token.{leading_blanks, leading_word, tokens};
ghost use Rattle.token.specs.Scan.{token_from, place_past};

use crate::byte::{in_word, is_blank};

// A token: a word from its first byte to behind its last, or a mark and the place behind it. By places in the line and not by its rest, here
// and in all that reads tokens: a label is held by its place.
#[derive(Clone, Copy, Debug, PartialEq, Eq)]
pub enum Token {
    End,
    Word(usize, usize),
    Mark(u8, usize),
}

// How many blanks a text begins with. Beside `run`, and not one over a closure: that asks for the closure's test as a ghost value, and is
// longer than these two chains.
fn blanks(text: &[u8]) -> usize
    ensures { result ≡ leading_blanks text.now }
{
    text.iter().take_while(|c| is_blank(**c)).count()
}

// How many letters and digits in a row a text begins with.
fn run(text: &[u8]) -> usize
    ensures { result ≡ length (leading_word text.now) }
{
    text.iter().take_while(|c| in_word(**c)).count()
}

// Behind the blanks that stand from a place on.
fn past_blanks(line: &[u8], at: usize) -> usize
    ensures { result ≡ at + leading_blanks (drop at line.now) }
{
    match line.get(at..) {
        Some(rest) => at + blanks(rest),
        None => at,
    }
}

// Behind the letters and digits in a row that stand from a place on.
pub fn past_run(line: &[u8], at: usize) -> usize
    ensures { result ≡ at + length (leading_word (drop at line.now)) }
{
    match line.get(at..) {
        Some(rest) => at + run(rest),
        None => at,
    }
}

// The first token from a place on.
pub fn token_at(line: &[u8], at: usize) -> Token
    ensures { result ≡ token_from line.now at }
{
    let start = past_blanks(line, at);
    let Some(&c) = line.get(start) else {
        return Token::End;
    };
    let stop = past_run(line, start);
    if stop == start {
        return Token::Mark(c, start + 1);
    }
    Token::Word(start, stop)
}

// Behind a mark.
#[tactic(auto, unfolding(crate::specs::Scan::place_past))]
pub fn past_mark(line: &[u8], at: usize, c: u8) -> Option<usize>
    ensures { result ≡ place_past c line.now at }
{
    match token_at(line, at) {
        Token::Mark(d, next) if d == c => Some(next),
        _ => None,
    }
}
