// The compares as one rule: two words are ordered three ways, floats four, and a row says which outcomes count as yes.
ghost use Rattle.std.specs.Prelude.{◌≡◌};
ghost use Rattle.ordering.specs.declared.rows.Kind.TheVariants.{Float};
ghost use Rattle.ordering.specs.Order.{order, order_biased, row, float_row, row_of, pick};
ghost use Rattle.ordering.specs.Compare.{compare};

use float::{feq, fgt, flt};
use isa::CompareOp;
use std::cmp::Ordering;

// What the operands of a compare stand for: whole numbers without sign, or with it, or floats.
#[derive(Clone, Copy)]
pub enum Kind {
    Unsigned,
    Signed,
    Float,
}

// A compare: what its operands stand for, and for each outcome whether it counts as yes.
#[derive(Clone, Copy)]
pub struct CompareRow {
    pub kind: Kind,
    pub below: bool,
    pub equal: bool,
    pub above: bool,
    pub unordered: bool,
}

fn row(kind: Kind, below: bool, equal: bool, above: bool) -> CompareRow
    ensures { result ≡ row kind below equal above }
{
    CompareRow {
        kind,
        below,
        equal,
        above,
        unordered: false,
    }
}

fn float_row(below: bool, equal: bool, above: bool, unordered: bool) -> CompareRow
    ensures { result ≡ float_row below equal above unordered }
{
    CompareRow {
        kind: Kind::Float,
        below,
        equal,
        above,
        unordered,
    }
}

// The columns: what the operands stand for, and whether below, equal and above count as yes; of floats, whether below, equal, above and
// unordered do.
pub fn compare_row(op: CompareOp) -> CompareRow
    ensures { result ≡ row_of op }
{
    match op {
        CompareOp::Eq => row(Kind::Unsigned, false, true, false),
        CompareOp::Ne => row(Kind::Unsigned, true, false, true),
        CompareOp::Gt => row(Kind::Signed, false, false, true),
        CompareOp::Ge => row(Kind::Signed, false, true, true),
        CompareOp::Lt => row(Kind::Signed, true, false, false),
        CompareOp::Le => row(Kind::Signed, true, true, false),
        CompareOp::Ugt => row(Kind::Unsigned, false, false, true),
        CompareOp::Uge => row(Kind::Unsigned, false, true, true),
        CompareOp::Ult => row(Kind::Unsigned, true, false, false),
        CompareOp::Ule => row(Kind::Unsigned, true, true, false),
        CompareOp::Feq => float_row(false, true, false, false),
        CompareOp::Fne => float_row(true, false, true, true),
        CompareOp::Fgt => float_row(false, false, true, false),
        CompareOp::Fge => float_row(false, true, true, false),
        CompareOp::Flt => float_row(true, false, false, false),
        CompareOp::Fle => float_row(true, true, false, false),
    }
}

// The order of two words once a bias is added to both, with wrapping: with 2^31 it is the signed one.
pub fn order_biased(bias: u32, x: u32, y: u32) -> Ordering
    ensures { Some result ≡ order_biased bias x y }
{
    let a = x.wrapping_add(bias);
    let b = y.wrapping_add(bias);
    a.cmp(&b)
}

// Three tests of the float unit, in the definition's order: `partial_cmp` asks for the patterns' values, which only the float unit has.
fn order_floats(x: u32, y: u32) -> Option<Ordering>
    ensures { result ≡ order Float x y }
{
    if flt(x, y) {
        return Some(Ordering::Less);
    }
    if feq(x, y) {
        return Some(Ordering::Equal);
    }
    if fgt(x, y) {
        return Some(Ordering::Greater);
    }
    None
}

// How one operand stands to the other. Where one is a NaN they are unordered: there is no order.
pub fn order(kind: Kind, x: u32, y: u32) -> Option<Ordering>
    ensures { result ≡ order kind x y }
{
    match kind {
        Kind::Unsigned => Some(order_biased(0, x, y)),
        Kind::Signed => Some(order_biased(2147483648, x, y)),
        Kind::Float => order_floats(x, y),
    }
}

// The columns go by value: the compiler then makes one instruction of a compare that it knows.
pub fn pick(
    outcome: Option<Ordering>,
    below: bool,
    equal: bool,
    above: bool,
    unordered: bool,
) -> bool
    ensures { result ≡ pick outcome below equal above unordered }
{
    match outcome {
        Some(Ordering::Less) => below,
        Some(Ordering::Equal) => equal,
        Some(Ordering::Greater) => above,
        None => unordered,
    }
}

pub fn compare(op: CompareOp, x: u32, y: u32) -> bool
    ensures { result ≡ compare op x y }
{
    let row = compare_row(op);
    pick(
        order(row.kind, x, y),
        row.below,
        row.equal,
        row.above,
        row.unordered,
    )
}
