// Sums and terms: read and reckoned at once.
ghost use Rattle.std.specs.Prelude.{◌-◌, ◌≤◌, ◌<◌, length, drop, ◌≡◌};
ghost use Rattle.std.proofs.Math.Seq.{slice};
ghost use Rattle.expression.specs.Grammar.{word_term, expression_at};
ghost use Rattle.expression.specs.Labels.{addresses};
ghost use Rattle.expression.specs.Reading.{InRange, ParsedInRange, Advances, AdvancesPast, TermRead};
ghost use Rattle.expression.specs.Reading.{SumRead, parsed_as, grouped, word_value, evaluated};
ghost use Rattle.expression.specs.Value.{value_term, value_of};
ghost use Rattle.token.specs.Token.{tokens};

use crate::sign::{lead_at, sign_at};
use crate::value::{Sign, Value, ZERO, nest, plus};
use crate::word::{Labels, word_term};
use token::{Token, past_mark, token_at};

// The sum in parentheses that has been read, if they close.
fn close(line: &[u8], inside: Option<(Value, usize)>, depth: u32) -> Option<(Value, usize)>
    requires { ParsedInRange inside }
    ensures read { parsed_as line.now result ≡ grouped depth (parsed_as line.now inside) }
    ensures ahead { AdvancesPast (length line.now) inside result }
{
    let (value, at) = inside?;
    let next = past_mark(line, at, b')')?;
    Some((nest(depth, value), next))
}

// A word as a term, and the place behind it.
fn word_at(line: &[u8], labels: Labels, start: usize, stop: usize) -> Option<(Value, usize)>
    requires { (stop ≤ length line.now) × (start < stop) }
    ensures read { parsed_as line.now result
        ≡ word_value (value_term (addresses labels.entry) 0)
        (word_term (slice start stop line.now)) (tokens (drop stop line.now)) }
    ensures ahead { Advances start (length line.now) result }
{
    let value = word_term(labels, &line[start..stop])?;
    Some((value, stop))
}

// A term, that is a number, a label, or a sum in parentheses, and the place behind it.
#[cycle(sum_term)]
fn term(line: &[u8], labels: Labels, at: usize, depth: u32) -> Option<(Value, usize)>
    ensures read { TermRead line.now (addresses labels.entry) at depth result }
    ensures ahead { Advances at (length line.now) result }
{
    match token_at(line, at) {
        Token::End => None,
        Token::Word(start, stop) => word_at(line, labels, start, stop),
        Token::Mark(c, next) => {
            if c != b'(' {
                return None;
            }
            let (sign, first) = lead_at(line, next);
            let left = depth.saturating_sub(1);
            let inside = sum(line, labels, first, left, Value::Known(ZERO), sign);
            close(line, inside, depth)
        }
    }
}

// A sum behind what it has come to, and the sign of its first term; and the place behind it.
#[cycle(sum_term)]
fn sum(
    line: &[u8],
    labels: Labels,
    at: usize,
    depth: u32,
    running: Value,
    sign: Sign,
) -> Option<(Value, usize)>
    requires { InRange running }
    ensures read { SumRead line.now (addresses labels.entry) at depth running sign result }
    ensures ahead { Advances at (length line.now) result }
{
    let (value, next) = term(line, labels, at, depth)?;
    let now = plus(running, sign, value);
    match sign_at(line, next) {
        None => Some((now, next)),
        Some((sign, after)) => sum(line, labels, after, depth, now, sign),
    }
}

// The value of the expression from a place on, and the place behind it.
pub fn expression_at(line: &[u8], labels: Labels, at: usize) -> Option<(Value, usize)>
    ensures { parsed_as line.now result
        ≡ evaluated (value_of (addresses labels.entry)) (expression_at (tokens (drop at line.now))) }
{
    let (sign, first) = lead_at(line, at);
    sum(line, labels, first, 8, Value::Known(ZERO), sign)
}
