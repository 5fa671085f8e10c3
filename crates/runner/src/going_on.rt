// A run goes on from where it ended: with a line of text for each issue, and then without.
use crate::failure::{Failure, told};
use interpreter::{Run, Stop};
use std::io;
use thread_entry::Status;
use trace::{PAGE_ROWS, Row};
use trace_lines::PAGE_LONGEST;

// Prints the lines of the first rows of a page, before which so many issues were made.
fn print_page(
    rt: &(impl Print + Eprint),
    made: u32,
    rows: [Row; PAGE_ROWS],
    count: u32,
) -> Result<(), Failure> {
    let mut text = [0u8; PAGE_LONGEST];
    let length = trace_lines::write_page(made, rows, count, &mut text);
    told(files::write_stream(
        rt,
        &mut io::writer(rt),
        b"write standard output",
        &text[..length],
    ))
}

// Goes on by so many issues, and prints a line for each, page by page, how many of which is known when the run ends: as long as a thread is
// running, and no line was lost.
fn print_rows(
    rt: &(impl Print + Eprint),
    program: &[u32],
    registers: &mut [u32],
    memory: &mut [u8],
    first: Run,
    rows: u32,
) -> Result<Run, Failure> {
    let blank = Row {
        thread: 0,
        address: 0,
        word: 0,
        status: Status::Idle,
    };
    let mut run = first;
    let mut left = rows;
    while (0 < left) & matches!(run.stop, Stop::Spent) {
        let page = trace::run_page(
            program,
            registers,
            memory,
            run.machine,
            left,
            [blank; PAGE_ROWS],
        )?;
        print_page(rt, run.issues, page.rows, page.run.issues)?;
        run = trace::joined(run, page.run);
        left = left.saturating_sub(PAGE_ROWS as u32);
    }
    Ok(run)
}

// Goes on by so many issues with lines, and so many without.
pub fn go_on(
    rt: &(impl Print + Eprint),
    program: &[u32],
    registers: &mut [u32],
    memory: &mut [u8],
    first: Run,
    rows: u32,
    rest: u32,
) -> Result<Run, Failure> {
    let run = print_rows(rt, program, registers, memory, first, rows)?;
    if rest == 0 {
        return Ok(run);
    }
    let next = interpreter::run(program, registers, memory, run.machine, rest);
    Ok(trace::continued(Ok(run), next)?)
}
