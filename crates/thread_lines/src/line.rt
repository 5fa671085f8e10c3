// The line of a thread, and the number of one that is off.
ghost use Rattle.std.specs.Prelude.{[], ◌∷◌, ◌≡◌};
ghost use Rattle.text.specs.Buffer.{wrote, puts};
ghost use Rattle.thread_lines.specs.Lines.{reason, barrier_parts, carried_parts, state_parts, turns_unit, turns_parts, line_parts, off_part};
ghost use Rattle.text.specs.Parts.{puts_all};
ghost use Rattle.thread_lines.specs.Text.{counter};

use text::{hex_of, put_decimal, put_text};
use thread_entry::{Status, Thread, is_idle};

// Why a thread trapped. A number, as the status carries it: a record from outside may hold any.
#[tactic(auto, unfolding(crate::specs::Lines::reason, isa::specs::Text::bytes))]
fn put_reason(out: &mut [u8], at: usize, number: u8) -> usize
    ensures { wrote result out.new ≡ puts (wrote at out.old) (reason number) }
{
    match number {
        1 => put_text(out, at, b"address not aligned"),
        2 => put_text(out, at, b"address outside memory"),
        3 => put_text(out, at, b"undefined word"),
        4 => put_text(out, at, b"outside the program"),
        5 => put_text(out, at, b"barrier refused"),
        _ => put_text(out, at, b"not fitted"),
    }
}

// A word for a status, and the program counter.
#[tactic(auto, unfolding(crate::specs::Text::counter))]
fn put_at(out: &mut [u8], at: usize, word: &[u8], pc: u32) -> usize
    ensures { wrote result out.new ≡ puts_all (wrote at out.old) (word.now ∷ counter pc ∷ []) }
{
    let at = put_text(out, at, word);
    let digits = hex_of(pc);
    put_text(out, at, &digits)
}

// What a waiting thread waits for.
#[tactic(auto, unfolding(isa::specs::Text::bytes))]
fn put_barrier(out: &mut [u8], at: usize, id: u8, count: u8) -> usize
    ensures { wrote result out.new ≡ puts_all (wrote at out.old) (barrier_parts id count) }
{
    let at = put_text(out, at, b" at barrier ");
    let at = put_decimal(out, at, id as u32);
    let at = put_text(out, at, b" for ");
    put_decimal(out, at, count as u32)
}

// What a status carries: why a thread trapped, or what it waits for.
#[tactic(auto, unfolding(isa::specs::Text::bytes))]
pub fn put_carried(out: &mut [u8], at: usize, status: Status) -> usize
    ensures { wrote result out.new ≡ puts_all (wrote at out.old) (carried_parts status) }
{
    match status {
        Status::Idle | Status::Running | Status::Ended => at,
        Status::Trapped(number) => {
            let at = put_text(out, at, b": ");
            put_reason(out, at, number)
        }
        Status::Waiting(id, count) => put_barrier(out, at, id, count),
    }
}

// A thread's status, its program counter, and what the status carries.
#[tactic(auto, unfolding(isa::specs::Text::bytes))]
fn put_state(out: &mut [u8], at: usize, status: Status, pc: u32) -> usize
    ensures { wrote result out.new ≡ puts_all (wrote at out.old) (state_parts status pc) }
{
    match status {
        Status::Idle => at,
        Status::Running => put_at(out, at, b" running at ", pc),
        Status::Ended => put_at(out, at, b" ended at ", pc),
        Status::Trapped(_) => {
            let at = put_at(out, at, b" trapped at ", pc);
            put_carried(out, at, status)
        }
        Status::Waiting(_, _) => {
            let at = put_at(out, at, b" waiting at ", pc);
            put_carried(out, at, status)
        }
    }
}

// What is counted, behind the number, and the end of the line.
#[tactic(auto, unfolding(crate::specs::Lines::turns_unit, isa::specs::Text::bytes))]
fn put_unit(out: &mut [u8], at: usize, turns: u32) -> usize
    ensures { wrote result out.new ≡ puts (wrote at out.old) (turns_unit turns) }
{
    if turns == 1 {
        put_text(out, at, b" turn\n")
    } else {
        put_text(out, at, b" turns\n")
    }
}

// How many turns a thread has had.
#[tactic(auto, unfolding(isa::specs::Text::bytes))]
fn put_turns(out: &mut [u8], at: usize, turns: u32) -> usize
    ensures { wrote result out.new ≡ puts_all (wrote at out.old) (turns_parts turns) }
{
    let at = put_text(out, at, b", ");
    let at = put_decimal(out, at, turns);
    put_unit(out, at, turns)
}

// The line of a thread; none where it is off. A buffer and a place go together, as crate text has them: a struct of a lent buffer would be
// no plainer, since every contract here is of the buffer before and after.
#[tactic(auto, unfolding(crate::specs::Lines::line_parts, isa::specs::Text::bytes))]
pub fn put_line(out: &mut [u8], at: usize, thread: u32, entry: Thread, pc: u32) -> usize
    ensures { wrote result out.new ≡ puts_all (wrote at out.old) (line_parts thread entry.status pc entry.turns) }
{
    if is_idle(entry.status) {
        return at;
    }
    let at = put_text(out, at, b"thread ");
    let at = put_decimal(out, at, thread);
    let at = put_state(out, at, entry.status, pc);
    put_turns(out, at, entry.turns)
}

// The number of a thread that is off; nothing where it is on.
#[tactic(auto, unfolding(crate::specs::Lines::off_part, isa::specs::Text::bytes))]
pub fn put_off(out: &mut [u8], at: usize, thread: u32, status: Status) -> usize
    ensures { wrote result out.new ≡ puts_all (wrote at out.old) (off_part thread status) }
{
    if !is_idle(status) {
        return at;
    }
    let at = put_text(out, at, b" ");
    put_decimal(out, at, thread)
}
