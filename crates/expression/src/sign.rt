// The signs between the terms of a sum, and the one that leads it.
ghost use Rattle.std.specs.Prelude.{◌≤◌, ◌≡◌, length, drop};
ghost use Rattle.token.specs.Token.{tokens};
ghost use Rattle.expression.specs.Grammar.{lead_at, sign_at};
ghost use Rattle.expression.specs.Reading.{signed, SignAdvances, lead_of};

use crate::value::Sign;
use token::{Token, token_at};

// The sign from a place on, and the place behind it.
pub fn sign_at(line: &[u8], at: usize) -> Option<(Sign, usize)>
    ensures sign { signed line.now result ≡ sign_at (tokens (drop at line.now)) }
    ensures onward { SignAdvances at (length line.now) result }
{
    match token_at(line, at) {
        Token::End | Token::Word(..) => None,
        Token::Mark(c, next) => {
            if c == b'+' {
                Some((Sign::Plus, next))
            } else if c == b'-' {
                Some((Sign::Minus, next))
            } else {
                None
            }
        }
    }
}

// The minus that may lead a sum, or else a plus, and the place behind it.
pub fn lead_at(line: &[u8], at: usize) -> (Sign, usize)
    ensures lead { lead_of line.now result ≡ lead_at (tokens (drop at line.now)) }
    ensures onward { at ≤ result.1 }
{
    match token_at(line, at) {
        Token::End | Token::Word(..) => (Sign::Plus, at),
        Token::Mark(c, next) => {
            if c == b'-' {
                (Sign::Minus, next)
            } else {
                (Sign::Plus, at)
            }
        }
    }
}
