// The program between its reads and its writes: a byte of input taken, and the text that it calls for.
// Program, registers and memory go one by one, as `night::tick` takes them.
ghost use Rattle.std.specs.Prelude.{◌≡◌};
ghost use Rattle.machine.specs.State.{state};
ghost use Rattle.night.specs.Tick.{outcome};
ghost use Rattle.minute_lines.specs.Parsing.{reading_in};
ghost use Rattle.minute_lines.specs.Taking.{is_empty, held_after, held_in, stepped, tick_on, end_line, take_byte, take_end, shown};

use crate::answers::{LONGEST, write_answer};
use crate::parsing::{Line, Reading, minute_in, with_byte};
use answer::Refusal;
use machine::Machine;
use night::Tick;

// What the program holds between two bytes, beside the registers and memory.
#[derive(Clone, Copy, Debug, PartialEq, Eq)]
pub struct Held {
    pub machine: Machine,
    pub kept: Option<u32>,
    pub line: Line,
}

// What it holds then, and how many bytes of text stand at the start of the buffer.
#[derive(Clone, Copy, Debug, PartialEq, Eq)]
pub struct Step {
    pub held: Held,
    pub printed: usize,
}

impl Held {
    // What is held behind a line, by what its call answered.
    fn after(self, answer: Result<Tick, Refusal>) -> Held
        ensures { result ≡ held_after self answer }
    {
        match answer {
            Ok(tick) => Held {
                machine: tick.machine,
                kept: Some(tick.minute),
                line: Line::Empty,
            },
            Err(_) => Held {
                line: Line::Empty,
                ..self
            },
        }
    }
}

// A line that is whole: a minute makes a call of the night box, and anything else is refused.
fn tick_on(
    program: &[u32],
    registers: &mut [u32],
    memory: &mut [u8],
    before: Held,
) -> Result<Tick, Refusal>
    ensures { outcome result before.kept before.machine registers.new memory.new
        ≡ tick_on program.now (state before.machine registers.old memory.old) before.kept (reading_in before.line) }
{
    let Some(Reading { minute, marked }) = minute_in(before.line) else {
        return Err(Refusal::Minute);
    };
    night::tick(
        program,
        registers,
        memory,
        before.machine,
        before.kept,
        minute,
        marked,
    )
}

// The end of a line.
fn end_line(
    program: &[u32],
    registers: &mut [u32],
    memory: &mut [u8],
    before: Held,
    out: &mut [u8; LONGEST],
) -> Step
    ensures { stepped result registers.new memory.new out.new
        ≡ shown out.old (end_line program.now (held_in before registers.old memory.old)) }
{
    let answer = tick_on(program, registers, memory, before);
    let printed = write_answer(answer, out);
    Step {
        held: before.after(answer),
        printed,
    }
}

// A byte of input.
pub fn take_byte(
    program: &[u32],
    registers: &mut [u32],
    memory: &mut [u8],
    before: Held,
    byte: u8,
    out: &mut [u8; LONGEST],
) -> Step
    ensures { stepped result registers.new memory.new out.new
        ≡ shown out.old (take_byte program.now (held_in before registers.old memory.old) byte) }
{
    if byte == 10 {
        return end_line(program, registers, memory, before, out);
    }
    Step {
        held: Held {
            line: with_byte(before.line, byte),
            ..before
        },
        printed: 0,
    }
}

fn is_empty(line: Line) -> bool
    ensures { result ≡ is_empty line }
{
    matches!(line, Line::Empty)
}

// The end of the input: a last line needs no line end.
pub fn take_end(
    program: &[u32],
    registers: &mut [u32],
    memory: &mut [u8],
    before: Held,
    out: &mut [u8; LONGEST],
) -> Step
    ensures { stepped result registers.new memory.new out.new
        ≡ shown out.old (take_end program.now (held_in before registers.old memory.old)) }
{
    if is_empty(before.line) {
        return Step {
            held: before,
            printed: 0,
        };
    }
    end_line(program, registers, memory, before, out)
}
