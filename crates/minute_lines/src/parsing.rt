// A line of input, byte by byte: there is no limit on its length.
ghost use Rattle.std.specs.Prelude.{true, ◌≡◌};
ghost use Rattle.minute_lines.specs.Line.{is_digit, given, in_day};
ghost use Rattle.minute_lines.specs.Parsing.{with_digit, with_byte, reading_in};

// What was read of a line so far: nothing, digits, digits and the mark, or what is no minute whatever follows.
// A number above 1439 is kept as 1440.
#[derive(Clone, Copy, Debug, PartialEq, Eq)]
pub enum Line {
    Empty,
    Digits(u32),
    Marked(u32),
    Wrong,
}

// What a whole line gives: a minute of the day, and whether a fall-back is marked.
#[derive(Clone, Copy, Debug, PartialEq, Eq)]
pub struct Reading {
    pub minute: u32,
    pub marked: bool,
}

// A number with one more digit.
fn with_digit(n: u32, byte: u8) -> u32
    requires { is_digit byte ≡ true }
    ensures { result ≡ with_digit n byte }
{
    let next = 10 * (n as u64) + ((byte - b'0') as u64);
    next.min(1440) as u32
}

// A line with one more byte.
#[tactic(auto, unfolding(crate::specs::Parsing::with_byte))]
pub fn with_byte(line: Line, byte: u8) -> Line
    ensures { result ≡ with_byte line byte }
{
    let digit = byte.is_ascii_digit();
    match line {
        Line::Empty if digit => Line::Digits(with_digit(0, byte)),
        Line::Digits(n) if digit => Line::Digits(with_digit(n, byte)),
        Line::Digits(n) if byte == b'f' => Line::Marked(n),
        Line::Empty | Line::Digits(_) | Line::Marked(_) | Line::Wrong => Line::Wrong,
    }
}

fn in_day(minute: u32, marked: bool) -> Option<Reading>
    ensures { given result ≡ in_day minute marked }
{
    if minute < 1440 {
        Some(Reading { minute, marked })
    } else {
        None
    }
}

// What a line gives, now that it is whole; none where that is no such number.
#[tactic(auto, unfolding(crate::specs::Parsing::reading_in))]
pub fn minute_in(line: Line) -> Option<Reading>
    ensures { given result ≡ reading_in line }
{
    match line {
        Line::Digits(minute) => in_day(minute, false),
        Line::Marked(minute) => in_day(minute, true),
        Line::Empty | Line::Wrong => None,
    }
}
