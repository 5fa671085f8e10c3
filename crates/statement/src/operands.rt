// The operands of an instruction.
ghost use Rattle.std.specs.Prelude.{◌≡◌, drop};
ghost use Rattle.std.proofs.Math.Option.{some};
ghost use Rattle.expression.specs.Labels.{addresses};
ghost use Rattle.token.specs.Scan.{place_of};
ghost use Rattle.token.specs.Token.{tokens};
ghost use Rattle.statement.specs.Mnemonic.{is_operand, has_operands};
ghost use Rattle.statement.specs.Found.{register_found};
ghost use Rattle.statement.specs.Operand.{operands_at};
ghost use Rattle.statement.specs.Field.{put, valued, register_field, field_in};
ghost use Rattle.statement.specs.Field.{parted, field_on, operands_seen, operands_evaluated};

use crate::registers::{Register, bracket_at, register_at};
use expression::{Labels, Value, ZERO, expression_at};
use isa::{Slot, Slots};
use token::past_mark;

// Operands: registers in their order, how many there are, and the value of the expression.
#[derive(Clone, Copy, Debug, PartialEq, Eq)]
pub struct OperandValues {
    pub first: Register,
    pub second: Register,
    pub third: Register,
    pub count: u32,
    pub value: Value,
}

pub fn is_operand(s: Slot) -> bool
    ensures { result ≡ is_operand s }
{
    !matches!(s, Slot::Nothing)
}

pub fn has_operands(s: Slots) -> bool
    ensures { result ≡ has_operands s }
{
    is_operand(s.first) | is_operand(s.second) | is_operand(s.third)
}

// A register more.
#[tactic(auto, unfolding(crate::specs::Field::put))]
fn with_register(f: OperandValues, register: Register) -> OperandValues
    ensures { result ≡ put f register }
{
    match f.count {
        0 => OperandValues {
            first: register,
            count: 1,
            ..f
        },
        1 => OperandValues {
            second: register,
            count: 2,
            ..f
        },
        2 => OperandValues {
            third: register,
            count: 3,
            ..f
        },
        _ => f,
    }
}

fn with_value(f: OperandValues, value: Value) -> OperandValues
    ensures { result ≡ valued f value }
{
    OperandValues { value, ..f }
}

fn add_register(
    line: &[u8],
    f: OperandValues,
    found: Option<(Register, usize)>,
) -> Option<(OperandValues, usize)>
    ensures { operands_seen line.now result ≡ register_field f (register_found line.now found) }
{
    let (r, next) = found?;
    Some((with_register(f, r), next))
}

fn immediate(
    line: &[u8],
    labels: Labels,
    f: OperandValues,
    at: usize,
) -> Option<(OperandValues, usize)>
    ensures { operands_seen line.now result
        ≡ field_in (addresses labels.entry) Slot.AnImmediate f (some (tokens (drop at line.now))) }
{
    let (value, next) = expression_at(line, labels, at)?;
    Some((with_value(f, value), next))
}

// A base in brackets, perhaps behind an offset.
fn address(
    line: &[u8],
    labels: Labels,
    f: OperandValues,
    at: usize,
) -> Option<(OperandValues, usize)>
    ensures { operands_seen line.now result
        ≡ field_in (addresses labels.entry) Slot.AnAddress f (some (tokens (drop at line.now))) }
{
    if let Some((r, next)) = bracket_at(line, at) {
        return Some((with_register(f, r), next));
    }
    let (offset, next) = immediate(line, labels, f, at)?;
    add_register(line, offset, bracket_at(line, next))
}

// Behind the comma that stands before every operand but the first.
fn separate(line: &[u8], f: OperandValues, at: usize) -> Option<usize>
    ensures { place_of line.now result ≡ parted f (tokens (drop at line.now)) }
{
    if f.count == 0 {
        Some(at)
    } else {
        past_mark(line, at, b',')
    }
}

fn operand(
    line: &[u8],
    labels: Labels,
    slot: Slot,
    f: OperandValues,
    at: usize,
) -> Option<(OperandValues, usize)>
    ensures { operands_seen line.now result
        ≡ field_in (addresses labels.entry) slot f (some (tokens (drop at line.now))) }
{
    match slot {
        Slot::ARegister => add_register(line, f, register_at(line, at)),
        Slot::AnImmediate => immediate(line, labels, f, at),
        Slot::AnAddress => address(line, labels, f, at),
        Slot::Nothing => None,
    }
}

// One operand more.
#[tactic(auto, unfolding(crate::specs::Field::field_on))]
fn next_operand(
    line: &[u8],
    labels: Labels,
    slot: Slot,
    before: Option<(OperandValues, usize)>,
) -> Option<(OperandValues, usize)>
    ensures { operands_seen line.now result
        ≡ field_on (addresses labels.entry) slot (operands_seen line.now before) }
{
    if !is_operand(slot) {
        return before;
    }
    let (f, at) = before?;
    let next = separate(line, f, at)?;
    operand(line, labels, slot, f, next)
}

// The operands from a place on, and the place behind them.
pub fn operands_at(
    line: &[u8],
    labels: Labels,
    s: Slots,
    at: usize,
) -> Option<(OperandValues, usize)>
    ensures { operands_seen line.now result
        ≡ operands_evaluated (addresses labels.entry) (operands_at s (tokens (drop at line.now))) }
{
    let zero = Register {
        vector: false,
        number: 0,
    };
    let none = OperandValues {
        first: zero,
        second: zero,
        third: zero,
        count: 0,
        value: Value::Known(ZERO),
    };
    let one = next_operand(line, labels, s.first, Some((none, at)));
    let two = next_operand(line, labels, s.second, one);
    next_operand(line, labels, s.third, two)
}
