// The lines of all threads: one for each that is on, and one for those that are off.
ghost use Rattle.std.specs.Prelude.{◌≡◌, length};
ghost use Rattle.answer.specs.Refusal.{register_words};
ghost use Rattle.text.specs.Buffer.{wrote};
ghost use Rattle.thread_lines.specs.Lines.{lines_parts, off_parts, off_line, thread_parts};
ghost use Rattle.text.specs.Parts.{puts_all};

use crate::line::{put_line, put_off};
use answer::REGISTER_WORDS;
use machine::{Machine, PROGRAM_COUNTER};
use text::put_text;

// The lines of the threads that are on.
#[tactic(auto, unfolding(crate::specs::Lines::lines_parts))]
fn put_lines(out: &mut [u8], at: usize, machine: Machine, registers: &[u32]) -> usize
    requires { length registers.now ≡ register_words }
    ensures { wrote result out.new ≡ puts_all (wrote at out.old) (lines_parts machine registers.now 8) }
{
    let mut next = at;
    for (thread, entry) in machine.threads.iter().enumerate() {
        let pc = registers[64 * thread + PROGRAM_COUNTER as usize];
        next = put_line(out, next, thread as u32, *entry, pc);
    }
    next
}

// The numbers of the threads that are off.
#[tactic(auto, unfolding(crate::specs::Lines::off_parts))]
fn put_numbers(out: &mut [u8], at: usize, machine: Machine) -> usize
    ensures { wrote result out.new ≡ puts_all (wrote at out.old) (off_parts machine 8) }
{
    let mut next = at;
    for (thread, entry) in machine.threads.iter().enumerate() {
        next = put_off(out, next, thread as u32, entry.status);
    }
    next
}

// The line of the threads that are off, unless all are on.
#[tactic(auto, unfolding(crate::specs::Lines::off_line, isa::specs::Text::bytes))]
fn put_off_line(out: &mut [u8], at: usize, machine: Machine) -> usize
    ensures { wrote result out.new ≡ puts_all (wrote at out.old) (off_line machine) }
{
    if machine.enabled == 255 {
        return at;
    }
    let at = put_text(out, at, b"threads off:");
    let at = put_numbers(out, at, machine);
    put_text(out, at, b"\n")
}

// Puts the lines of a machine's threads at a place of the buffer, and answers the place behind them. A part that has no room is left out.
pub fn put_threads(
    out: &mut [u8],
    at: usize,
    machine: Machine,
    registers: &[u32; REGISTER_WORDS],
) -> usize
    ensures { wrote result out.new ≡ puts_all (wrote at out.old) (thread_parts machine registers.now) }
{
    let at = put_lines(out, at, machine, registers);
    put_off_line(out, at, machine)
}
