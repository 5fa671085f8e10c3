// The whole text: how the run ended, then the lines of the threads.
// A buffer and a place go together, as in crate text.
ghost use Rattle.std.specs.Prelude.{Ok, ◌≡◌};
ghost use Rattle.text.specs.Buffer.{wrote, puts, writes};
ghost use Rattle.text.specs.Parts.{puts_all};
ghost use Rattle.report.specs.Report.{counted, body_parts, report};

use answer::{REGISTER_WORDS, Refusal};
use interpreter::{Run, Stop};
use text::{put_decimal, put_text};
use thread_lines::put_threads;

// What is counted, and the end of the first line. Apart from thread_lines' line of turns: one function of both texts would be no plainer,
// since each contract names its own text.
#[tactic(auto, unfolding(crate::specs::Report::counted, isa::specs::Text::bytes))]
fn put_counted(out: &mut [u8], at: usize, issues: u32) -> usize
    ensures { wrote result out.new ≡ puts (wrote at out.old) (counted issues) }
{
    if issues == 1 {
        put_text(out, at, b" issue\n")
    } else {
        put_text(out, at, b" issues\n")
    }
}

// The first line, from the word for the answer on, and the lines of the threads.
#[tactic(auto, unfolding(isa::specs::Text::bytes))]
fn put_body(out: &mut [u8], word: &[u8], run: Run, registers: &[u32; REGISTER_WORDS]) -> usize
    ensures { wrote result out.new ≡ puts_all (wrote 0 out.old) (body_parts word.now run.issues run.machine registers.now) }
{
    let at = put_text(out, 0, word);
    let at = put_text(out, at, b" after ");
    let at = put_decimal(out, at, run.issues);
    let at = put_counted(out, at, run.issues);
    put_threads(out, at, run.machine, registers)
}

// The longest text: 32 bytes for the first line, 93 for each thread, and 101 for the line of those that are off.
pub const LONGEST: usize = 877;

// Puts the text for a run that was made at the start of the buffer.
fn put_run(out: &mut [u8; LONGEST], run: Run, registers: &[u32; REGISTER_WORDS]) -> usize
    ensures { wrote result out.new ≡ writes out.old 0 (report (Ok run) registers.now) }
{
    match run.stop {
        Stop::Stopped => put_body(out, b"stopped", run, registers),
        Stop::Stuck => put_body(out, b"stuck", run, registers),
        Stop::Spent => put_body(out, b"spent", run, registers),
    }
}

// Puts the text for a run at the start of the buffer, and answers its length: 0 for a refused run, of which nothing is printed.
#[tactic(auto, unfolding(crate::specs::Report::report))]
pub fn write_report(
    run: Result<Run, Refusal>,
    registers: &[u32; REGISTER_WORDS],
    out: &mut [u8; LONGEST],
) -> usize
    ensures { wrote result out.new ≡ writes out.old 0 (report run registers.now) }
{
    match run {
        Ok(run) => put_run(out, run, registers),
        Err(_) => 0,
    }
}
