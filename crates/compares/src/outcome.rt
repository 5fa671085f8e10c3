// A compare of sixteen lanes as a bit a lane.
ghost use Rattle.std.specs.Prelude.{ℕ, Bool, true, false, ◌≡◌, ◌<◌};
ghost use Rattle.ordering.specs.declared.rows.Kind.TheVariants.{Float};
ghost use Rattle.ordering.specs.Compare.{compare};
ghost use Rattle.ordering.specs.Order.{order, bias_of, row_of, pick};
ghost use Rattle.vector.specs.Lanes.{lane};
ghost use Rattle.compares.specs.Lanes.{mask_below, compare_lanes};
ghost use Rattle.compares.specs.Outcome.{is_float, flags_of, outcomes_of, answers_of};

use isa::CompareOp;
use ordering::{CompareRow, Kind};
use std::cmp::Ordering;

// A row of whole numbers as lanes take it: the bias of its kind, and its columns with 16 ones for an outcome that counts as yes, 0 for
// another.
#[derive(Clone, Copy)]
struct Outcomes {
    bias: u32,
    below: u32,
    equal: u32,
    above: u32,
}

// An answer in the bits of all lanes.
pub fn flags(yes: bool) -> u32
    ensures { result ≡ flags_of yes }
{
    if yes { 65535 } else { 0 }
}

fn bias(kind: Kind) -> u32
    ensures { result ≡ bias_of kind }
{
    match kind {
        Kind::Unsigned => 0,
        Kind::Signed => 2147483648,
        Kind::Float => 0,
    }
}

fn outcomes_of(row: CompareRow) -> Outcomes
    ensures { result ≡ outcomes_of row }
{
    Outcomes {
        bias: bias(row.kind),
        below: flags(row.below),
        equal: flags(row.equal),
        above: flags(row.above),
    }
}

// Whole numbers are never unordered. Two tests in place of a match on the outcome: the lane loop then has no branch, and is four times as
// fast.
fn select(outcome: Ordering, below: u32, equal: u32, above: u32) -> u32
    ensures { result ≡ pick (Some outcome) below equal above above }
{
    if matches!(outcome, Ordering::Less) {
        return below;
    }
    if matches!(outcome, Ordering::Equal) {
        return equal;
    }
    above
}

// A bit a lane, of an answer in the bits of all lanes: where `flags_at` is known, the compiler makes vector instructions of the loop.
fn collect<F: Fn(u32, u32) -> u32>(x: [u32; 16], y: [u32; 16], flags_at: F) -> u32
    requires { F.IsAlwaysCallable flags_at }
    ensures { (f : ℕ → Bool) → ((j r : ℕ) → j < 16 → F.post flags_at (lane x j) (lane y j) r → r ≡ flags_of (f j)) → result ≡ mask_below 16 f }
{
    // By index: j is the lane of both and the bit; zip and enumerate would say the same by three names.
    let mut r: u32 = 0;
    for j in 0..16usize {
        r |= flags_at(x[j], y[j]) & (1 << j);
    }
    r
}

fn answer(op: CompareOp, o: Outcomes, x: u32, y: u32) -> u32
    requires { (o ≡ outcomes_of (row_of op)) × (is_float (row_of op).kind ≡ false) }
    ensures { result ≡ flags_of (compare op x y) }
{
    select(
        ordering::order_biased(o.bias, x, y),
        o.below,
        o.equal,
        o.above,
    )
}

// The row is looked up outside the loop: one loop serves every compare of whole numbers.
#[tactic(auto, unfolding(crate::specs::Outcome::answers_of))]
fn each_integer(op: CompareOp, o: Outcomes, x: [u32; 16], y: [u32; 16]) -> u32
    requires { (o ≡ outcomes_of (row_of op)) × (is_float (row_of op).kind ≡ false) }
    ensures { result ≡ answers_of op x y }
{
    collect(x, y, |a, b| answer(op, o, a, b))
}

// The answer of two floats, by the columns of a row.
fn float_answer(below: bool, equal: bool, above: bool, unordered: bool, x: u32, y: u32) -> bool
    ensures { result ≡ pick (order Float x y) below equal above unordered }
{
    ordering::pick(
        ordering::order(Kind::Float, x, y),
        below,
        equal,
        above,
        unordered,
    )
}

// The columns go by value: where they are known, the compiler makes one instruction of the three tests. Tried: the float unit's own six
// tests, one for each arm; twice as fast on some, but 2.7 kB larger: the calls would pass the 49,000 bytes of
// tests/board.
fn each_float(
    below: bool,
    equal: bool,
    above: bool,
    unordered: bool,
    x: [u32; 16],
    y: [u32; 16],
) -> u32
    ensures { result ≡ mask_below 16 (λ j. pick (order Float (lane x j) (lane y j)) below equal above unordered) }
{
    collect(x, y, |a, b| {
        flags(float_answer(below, equal, above, unordered, a, b))
    })
}

// The match stands outside the lane loop, each arm with its row's columns.
fn float_answers(op: CompareOp, x: [u32; 16], y: [u32; 16]) -> u32
    requires { is_float (row_of op).kind ≡ true }
    ensures { result ≡ answers_of op x y }
{
    match op {
        CompareOp::Feq => each_float(false, true, false, false, x, y),
        CompareOp::Fne => each_float(true, false, true, true, x, y),
        CompareOp::Fgt => each_float(false, false, true, false, x, y),
        CompareOp::Fge => each_float(false, true, true, false, x, y),
        CompareOp::Flt => each_float(true, false, false, false, x, y),
        CompareOp::Fle => each_float(true, true, false, false, x, y),
        _ => 0,
    }
}

fn answers(op: CompareOp, x: [u32; 16], y: [u32; 16]) -> u32
    ensures { result ≡ answers_of op x y }
{
    let row = ordering::compare_row(op);
    match row.kind {
        Kind::Float => float_answers(op, x, y),
        Kind::Unsigned | Kind::Signed => each_integer(op, outcomes_of(row), x, y),
    }
}

pub fn compare_lanes(op: CompareOp, mask: u32, x: [u32; 16], y: [u32; 16]) -> u32
    ensures { result ≡ compare_lanes op mask x y }
{
    answers(op, x, y) & mask
}
