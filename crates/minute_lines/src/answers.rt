// An answer as a line of text.
ghost use Rattle.std.specs.Prelude.{◌≡◌};
ghost use Rattle.text.specs.Buffer.{wrote, writes};
ghost use Rattle.text.specs.Parts.{puts_all};
ghost use Rattle.minute_lines.specs.Answers.{answered, report_parts, refusal_parts, answer_text};

use answer::Refusal;
use night::Tick;
use text::{put_decimal, put_text};

// The line of a minute that was taken.
#[tactic(auto, unfolding(crate::specs::Answers::report_parts, isa::specs::Text::bytes))]
fn put_report(out: &mut [u8], tick: Tick) -> usize
    ensures { wrote result out.new ≡ puts_all (wrote 0 out.old) (report_parts tick.minute tick.skipped tick.relays) }
{
    let at = put_decimal(out, 0, tick.minute);
    let at = put_text(out, at, b" ");
    let at = put_decimal(out, at, tick.skipped);
    let at = put_text(out, at, b" ");
    let at = put_decimal(out, at, tick.relays);
    put_text(out, at, b"\n")
}

// The line of one that was refused.
#[tactic(auto, unfolding(crate::specs::Answers::refusal_parts, isa::specs::Text::bytes))]
fn put_refusal(out: &mut [u8], number: u8) -> usize
    ensures { wrote result out.new ≡ puts_all (wrote 0 out.old) (refusal_parts number) }
{
    let at = put_text(out, 0, b"refused ");
    let at = put_decimal(out, at, number as u32);
    put_text(out, at, b"\n")
}

// Room for the longest line: three numbers of ten digits, two spaces and a line end.
pub const LONGEST: usize = 33;

// Puts the line for an answer at the start of the buffer, and answers its length.
pub fn write_answer(answer: Result<Tick, Refusal>, out: &mut [u8; LONGEST]) -> usize
    ensures { wrote result out.new ≡ writes out.old 0 (answer_text (answered answer)) }
{
    match answer {
        Ok(tick) => put_report(out, tick),
        Err(refusal) => put_refusal(out, refusal.number()),
    }
}
