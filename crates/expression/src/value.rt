// Values of expressions.
ghost use Rattle.std.specs.Prelude.{◌≡◌};
ghost use Rattle.expression.specs.Value.{bounded, nested};
ghost use Rattle.expression.specs.Value.{plus as Value·plus};
ghost use Rattle.expression.specs.Reading.{InRange};
ghost use Rattle.expression.specs.Types.{Known};

#[derive(Clone, Copy, Debug, PartialEq, Eq)]
pub enum Sign {
    Plus,
    Minus,
}

// A number with 2^32 added to it; or one that is too large or stands too deep; or one with a label that is not known.
// Its own enum, and no Result: a sum goes on behind a value that is too large, since a label that is not known counts before it.
#[derive(Clone, Copy, Debug, PartialEq, Eq)]
pub enum Value {
    Known(u64),
    TooLarge,
    Unknown,
}

// What 0 is held as.
pub const ZERO: u64 = 0x100000000;

// The value, if it is within plus or minus 2^31. That it is so stands in the contracts (`InRange`), and not in the type: what specs/
// defines reckons with `Known n` of any n.
#[tactic(auto, unfolding(crate::specs::Value::bounded))]
pub fn bound(n: u64) -> Value
    ensures value { result ≡ bounded n }
    ensures held { InRange result }
{
    match n {
        0x80000000..=0x180000000 => Value::Known(n),
        _ => Value::TooLarge,
    }
}

fn add(a: u64, sign: Sign, b: u64) -> Value
    requires { InRange (Known a) × InRange (Known b) }
    ensures value { result ≡ Value·plus (Known a) sign (Known b) }
    ensures held { InRange result }
{
    match sign {
        Sign::Plus => bound(a + b - ZERO),
        Sign::Minus => bound(a + ZERO - b),
    }
}

// One term more behind a running sum.
pub fn plus(sum: Value, sign: Sign, term: Value) -> Value
    requires { InRange sum × InRange term }
    ensures value { result ≡ Value·plus sum sign term }
    ensures held { InRange result }
{
    match (sum, term) {
        (Value::Known(a), Value::Known(b)) => add(a, sign, b),
        (Value::Unknown, _) | (_, Value::Unknown) => Value::Unknown,
        _ => Value::TooLarge,
    }
}

// What stands in parentheses, where so many more may open.
pub fn nest(depth: u32, inside: Value) -> Value
    requires { InRange inside }
    ensures value { result ≡ nested depth inside }
    ensures held { InRange result }
{
    match inside {
        Value::Known(_) if depth == 0 => Value::TooLarge,
        _ => inside,
    }
}
