// What a line says.
ghost use Rattle.std.specs.Prelude.{◌≡◌, ◌+◌, ◌≤◌, ◌<◌, length, drop, get_or};
ghost use Rattle.std.proofs.Math.Option.{some};
ghost use Rattle.token.specs.Token.{past, leading_word, tokens};
ghost use Rattle.token.specs.Byte.{is_blank};
ghost use Rattle.expression.specs.Labels.{addresses};
ghost use Rattle.statement.specs.Line.{up_to, code_line, line_of, named_line, by_colon};
ghost use Rattle.statement.specs.Evaluation.{line_value, evaluated_line, LabelInside, IsLabelLine};

use crate::mnemonics::named;
use crate::operands::{OperandValues, has_operands, operands_at};
use expression::Labels;
use isa::{Instruction, slots_of};
use token::{Token, is_blank, is_label, past_mark, token_at};

// A line: a label's place, or an instruction's name (every field 0) and operands.
#[derive(Clone, Copy, Debug, PartialEq, Eq)]
pub enum Line {
    Blank,
    Label(usize),
    Code(Instruction, OperandValues),
}

// The bytes of a text before the first that is c.
pub fn up_to(text: &[u8], c: u8) -> &[u8]
    ensures { result.now ≡ up_to c text.now }
{
    let end = text.iter().take_while(|d| **d != c).count();
    &text[..end]
}

fn blank_at(line: &[u8], at: usize) -> bool
    ensures { result ≡ is_blank (get_or line.now at 0) }
{
    line.get(at).is_some_and(|c| is_blank(*c))
}

// A line that is a label with its colon, if nothing stands behind that.
fn label_line(line: &[u8], start: usize, stop: usize, next: usize) -> Option<Line>
    requires { (stop ≤ length line.now) × (start < stop) × (stop < next) × (next ≤ length line.now)
        × (stop ≡ start + length (leading_word (drop start line.now))) }
    ensures line { IsLabelLine line.now start next result }
    ensures label { LabelInside (length line.now) result }
{
    if !is_label(&line[start..stop]) {
        return None;
    }
    match token_at(line, next) {
        Token::End => Some(Line::Label(start)),
        Token::Word(..) | Token::Mark(..) => None,
    }
}

// A line that begins with an instruction's name, which ends at a place.
fn instruction_line(line: &[u8], labels: Labels, i: Instruction, stop: usize) -> Option<Line>
    ensures line { line_value line.now result
        ≡ evaluated_line (addresses labels.entry)
        (named_line (some i) (is_blank (get_or line.now stop 0)) (tokens (drop stop line.now))) }
    ensures label { LabelInside (length line.now) result }
{
    let slots = slots_of(i);
    let enough = blank_at(line, stop) | !has_operands(slots);
    let (operand_values, next) = operands_at(line, labels, slots, stop)?;
    match token_at(line, next) {
        Token::End => {
            if enough {
                Some(Line::Code(i, operand_values))
            } else {
                None
            }
        }
        Token::Word(..) | Token::Mark(..) => None,
    }
}

// A line that begins with a word.
fn word_line(line: &[u8], labels: Labels, start: usize, stop: usize) -> Option<Line>
    requires { (stop ≤ length line.now) × (start < stop) × (stop ≡ start + length (leading_word (drop start line.now))) }
    ensures line { line_value line.now result
        ≡ evaluated_line (addresses labels.entry)
        (by_colon (leading_word (drop start line.now)) (is_blank (get_or line.now stop 0))
        (tokens (drop stop line.now)) (past 58 (tokens (drop stop line.now)))) }
    ensures label { LabelInside (length line.now) result }
{
    if let Some(next) = past_mark(line, stop, b':') {
        return label_line(line, start, stop, next);
    }
    let i = named(&line[start..stop])?;
    instruction_line(line, labels, i, stop)
}

// A line without its comment.
fn code_line(line: &[u8], labels: Labels) -> Option<Line>
    ensures line { line_value line.now result
        ≡ evaluated_line (addresses labels.entry) (code_line line.now) }
    ensures label { LabelInside (length line.now) result }
{
    match token_at(line, 0) {
        Token::End => Some(Line::Blank),
        Token::Mark(..) => None,
        Token::Word(start, stop) => word_line(line, labels, start, stop),
    }
}

// The most bytes of a line.
const LONGEST_LINE: usize = 120;

// What a line of a source says, by its labels; None where it is malformed.
#[tactic(auto, unfolding(crate::specs::Line::line_of))]
pub fn line_of(line: &[u8], labels: Labels) -> Option<Line>
    ensures line { line_value line.now result
        ≡ evaluated_line (addresses labels.entry) (line_of line.now) }
    ensures label { LabelInside (length line.now) result }
{
    if LONGEST_LINE < line.len() {
        return None;
    }
    code_line(up_to(line, b';'), labels)
}
