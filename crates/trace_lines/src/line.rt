// The line of a row: the issue's number, the thread, the address, the word and its name, and the thread's status after it.
// A buffer and a place go together, as in crate text.
ghost use Rattle.std.specs.Prelude.{◌∷◌, [], ◌≡◌};
ghost use Rattle.isa.specs.Text.{bytes};
ghost use Rattle.listing.specs.Listing.{label};
ghost use Rattle.text.specs.Buffer.{wrote, puts};
ghost use Rattle.text.specs.Parts.{puts_all};
ghost use Rattle.trace_lines.specs.Lines.{status_parts, is_outside, name_in, numbers_parts, hex_parts, line_parts};

use isa::Unreadable;
use text::{hex_of, put_decimal, put_long, put_text};
use thread_entry::Status;
use thread_lines::put_carried;
use trace::Row;

// A status, with what it carries.
#[tactic(auto, unfolding(isa::specs::Text::bytes))]
fn put_status(out: &mut [u8], at: usize, status: Status) -> usize
    ensures { wrote result out.new ≡ puts_all (wrote at out.old) (status_parts status) }
{
    match status {
        Status::Idle => put_text(out, at, b"idle"),
        Status::Running => put_text(out, at, b"running"),
        Status::Ended => put_text(out, at, b"ended"),
        Status::Trapped(_) => {
            let at = put_text(out, at, b"trapped");
            put_carried(out, at, status)
        }
        Status::Waiting(_, _) => {
            let at = put_text(out, at, b"waiting");
            put_carried(out, at, status)
        }
    }
}

// Whether a thread trapped because there is no word at its address, or none where it was to jump: 4 is that reason, in a pattern, which
// calls no function.
fn is_outside(status: Status) -> bool
    ensures { result ≡ is_outside status }
{
    matches!(status, Status::Trapped(4))
}

// The name of a word, as the lister has it. Beside listing's, which puts a line end behind: neither crate knows the other's lines.
#[tactic(auto, unfolding(listing::specs::Listing::label, isa::specs::Text::bytes))]
fn put_label(out: &mut [u8], at: usize, word: u32) -> usize
    ensures { wrote result out.new ≡ puts (wrote at out.old) (label word) }
{
    match isa::read_word(word) {
        Ok(i) => {
            let name = names::name_of(i);
            put_text(out, at, &name.bytes[..name.len])
        }
        Err(Unreadable::Undefined) => put_text(out, at, b"undefined"),
        Err(Unreadable::NotFitted) => put_text(out, at, b"not-fitted"),
    }
}

// The name of a row's word.
#[tactic(auto, unfolding(crate::specs::Lines::name_in, isa::specs::Text::bytes))]
fn put_name(out: &mut [u8], at: usize, word: u32, status: Status) -> usize
    ensures { wrote result out.new ≡ puts (wrote at out.old) (name_in word status) }
{
    if (word == 0) & is_outside(status) {
        put_text(out, at, b"-")
    } else {
        put_label(out, at, word)
    }
}

// The issue's number and the thread.
#[tactic(auto, unfolding(isa::specs::Text::bytes))]
fn put_numbers(out: &mut [u8], at: usize, issue: u64, thread: u32) -> usize
    ensures { wrote result out.new ≡ puts_all (wrote at out.old) (numbers_parts issue thread) }
{
    let at = put_long(out, at, issue);
    let at = put_text(out, at, b" ");
    let at = put_decimal(out, at, thread);
    put_text(out, at, b" ")
}

// An address or a word.
#[tactic(auto, unfolding(thread_lines::specs::Text::counter, isa::specs::Text::bytes))]
fn put_hex(out: &mut [u8], at: usize, n: u32) -> usize
    ensures { wrote result out.new ≡ puts_all (wrote at out.old) (hex_parts n) }
{
    let digits = hex_of(n);
    let at = put_text(out, at, &digits);
    put_text(out, at, b" ")
}

// Puts the line at a place, and answers the place behind it. A part that has no room is left out.
#[tactic(auto, unfolding(crate::specs::Lines::line_parts, isa::specs::Text::bytes))]
pub fn put_line(out: &mut [u8], at: usize, issue: u64, row: Row) -> usize
    ensures { wrote result out.new ≡ puts_all (wrote at out.old) (line_parts issue row) }
{
    let at = put_numbers(out, at, issue, row.thread as u32);
    let at = put_hex(out, at, row.address);
    let at = put_hex(out, at, row.word);
    let at = put_name(out, at, row.word, row.status);
    let at = put_text(out, at, b" ");
    let at = put_status(out, at, row.status);
    put_text(out, at, b"\n")
}
