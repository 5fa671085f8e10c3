// The runner: reads a program, starts a machine or resumes a saved one, runs the program on it, prints a line for an issue where asked,
// saves the machine where asked, and prints how the run ended.
#![tactic(auto)]

mod failure;
mod going_on;
mod saving;
mod settings;

ghost use Rattle.std.specs.Prelude.{◌≤◌, length};
ghost use Rattle.files.specs.Reading.{size_of};
ghost use Rattle.io.specs.Counts.{IsPrefixLen};
ghost use Rattle.answer.specs.Refusal.{memory_bytes};

use answer::{MEMORY_BYTES, PROGRAM_WORDS, REGISTER_WORDS, Refusal};
use failure::{Failure, told};
use files::{Failed, read_numbered, read_stream, refuse, write_numbered, write_stream};
use image_sizes::{IMAGE_ROOM, memory_of};
use interpreter::Run;
use machine::Machine;
use program::INPUT_BYTES;
use settings::{Origin, Settings};
use std::io;
use std::rt::Files;

// The stream of a machine to resume, or of the program where standard input has the machine, which the command opens.
const SECOND_IN: &str = "/dev/fd/3";

// The stream of the report where the lines of a trace have standard output, which the command opens.
const REPORT_OUT: &str = "/dev/fd/5";

// Prints a part of the report.
fn write_out(
    rt: &(impl Files + Print + Eprint),
    settings: Settings,
    text: &[u8],
) -> Result<(), Failure> {
    let failure: &[u8] = b"write standard output";
    if settings.rows == 0 {
        told(write_stream(rt, &mut io::writer(rt), failure, text))
    } else {
        told(write_numbered(rt, REPORT_OUT, failure, text))
    }
}

// Prints how a run ended.
fn print(
    rt: &(impl Files + Print + Eprint),
    settings: Settings,
    run: Run,
    registers: &[u32; REGISTER_WORDS],
) -> Result<(), Failure> {
    let mut text = [0u8; report::LONGEST];
    let length = report::write_report(Ok(run), registers, &mut text);
    write_out(rt, settings, &text[..length])
}

// Prints how many entries it looked at.
fn print_looks(
    rt: &(impl Files + Print + Eprint),
    settings: Settings,
    looks: u64,
) -> Result<(), Failure> {
    let mut text = [0u8; report::LOOKS_LONGEST];
    let length = report::write_looks(looks, &mut text);
    write_out(rt, settings, &text[..length])
}

// Saves the machine where asked, and prints how the run ended: in this order, so that that is not printed of a run whose machine was to
// be saved and was not. The memory's length stands in the contracts, here and below: it is lent, and a struct of it would be opened at
// each call.
fn finish(
    rt: &(impl Files + Print + Eprint),
    settings: Settings,
    registers: &[u32; REGISTER_WORDS],
    memory: &[u8],
    run: Run,
) -> Result<(), Failure>
    requires { length memory.now ≤ memory_bytes }
{
    if settings.save {
        saving::save(rt, registers, memory, run.machine)?;
    }
    print(rt, settings, run, registers)?;
    if settings.looks {
        print_looks(rt, settings, run.looks)?;
    }
    Ok(())
}

// Runs the program. Where a line of its trace is lost, that is the end.
fn run(
    rt: &(impl Files + Print + Eprint),
    settings: Settings,
    program: &[u32],
    registers: &mut [u32; REGISTER_WORDS],
    memory: &mut [u8],
    machine: Machine,
) -> Result<(), Failure>
    requires { length memory.old ≤ memory_bytes }
{
    let first = interpreter::run(program, registers, memory, machine, settings.budget)?;
    let whole = going_on::go_on(
        rt,
        program,
        registers,
        memory,
        first,
        settings.rows,
        settings.rest,
    )?;
    finish(rt, settings, registers, memory, whole)
}

// Starts a machine on a memory of zeros, and runs the program.
fn start(
    rt: &(impl Files + Print + Eprint),
    settings: Settings,
    program: &[u32],
    memory: &mut [u8],
) -> Result<(), Failure>
    requires { length memory.old ≤ memory_bytes }
{
    let mut registers = [0u32; REGISTER_WORDS];
    let machine = interpreter::start(settings.mask, &mut registers)?;
    run(rt, settings, program, &mut registers, memory, machine)
}

fn begin(
    rt: &(impl Files + Print + Eprint),
    settings: Settings,
    program: &[u32],
) -> Result<(), Failure> {
    let size = settings.memory as usize;
    if answer::bad_memory(size) {
        return Err(Failure::Refused(Refusal::Memory));
    }
    let mut memory = [0u8; MEMORY_BYTES];
    start(rt, settings, program, &mut memory[..size])
}

// Reads standard input, or the stream that the command opens. By a flag: both calls choose between the same two streams.
fn read_one(
    rt: &(impl Input + Files + Eprint),
    standard: bool,
    failure: &[u8],
    buf: &mut [u8],
) -> Result<usize, Failed>
    ensures { IsPrefixLen (size_of result) buf.new }
{
    if standard {
        return read_stream(rt, &mut rt.reader(), failure, buf);
    }
    read_numbered(rt, SECOND_IN, failure, buf)
}

// Reads a machine from an image, and runs the program on it.
fn restore(
    rt: &(impl Files + Print + Eprint),
    settings: Settings,
    program: &[u32],
    image: &[u8],
    memory: &mut [u8],
) -> Result<(), Failure>
    requires { length memory.old ≤ memory_bytes }
{
    let mut registers = [0u32; REGISTER_WORDS];
    let machine = image::read(image, &mut registers, memory)?;
    run(rt, settings, program, &mut registers, memory, machine)
}

fn resume(
    rt: &(impl Input + Files + Print + Eprint),
    settings: Settings,
    program: &[u32],
) -> Result<(), Failure> {
    let mut image = [0u8; IMAGE_ROOM];
    let standard = matches!(settings.origin, Origin::StandardInput);
    let length = read_one(rt, standard, b"read the image", &mut image)?;
    let size = memory_of(length);
    if answer::bad_memory(size) {
        return Err(Failure::Refused(Refusal::Length));
    }
    let mut memory = [0u8; MEMORY_BYTES];
    restore(rt, settings, program, &image[..length], &mut memory[..size])
}

// Reads the program, and goes on with it.
fn load(rt: &(impl Input + Files + Print + Eprint), settings: Settings) -> Result<(), Failure> {
    let mut bytes = [0u8; INPUT_BYTES];
    let standard = !matches!(settings.origin, Origin::StandardInput);
    let size = read_one(rt, standard, b"read the program", &mut bytes)?;
    let mut program = [0u32; PROGRAM_WORDS];
    let count = program::words(&bytes[..size], &mut program)?;
    let program = &program[..count];
    match settings.origin {
        Origin::Started => begin(rt, settings, program),
        Origin::SecondStream | Origin::StandardInput => resume(rt, settings, program),
    }
}

fn main(rt: HostRuntime) {
    let Some(settings) = settings::read_settings(&rt) else {
        return;
    };
    if let Err(Failure::Refused(refusal)) = load(&rt, settings) {
        refuse(&rt, refusal.number());
    }
}
