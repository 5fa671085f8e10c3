// The converter: reads a saved machine from an image of either form, and writes it in the form that is asked for.
#![tactic(auto)]

ghost use Rattle.std.specs.Prelude.{◌≤◌, length};
ghost use Rattle.answer.specs.Refusal.{memory_bytes};

use answer::{BLOCK_BYTES, MEMORY_BYTES, REGISTER_WORDS, Refusal};
use files::{complain, read_stream, refuse, write_numbered_synced, write_stream};
use image_layout::{Form, Shape};
use image_sizes::{IMAGE_ROOM, LONGEST_IMAGE, image_size, memory_of};
use machine::Machine;
use std::io;
use std::rt::{Env, Files};

// The stream of the image to write, which the command opens.
const IMAGE_OUT: &str = "/dev/fd/4";

// The form that is asked for, and whether counts of turns may be dropped.
#[derive(Clone, Copy)]
struct Settings {
    form: Form,
    dropping: bool,
}

// Says which form was written.
fn print(rt: &(impl Print + Eprint), form: Form) {
    let said: &[u8] = match form {
        Form::Newest => b"newest form\n",
        Form::Old => b"old form\n",
    };
    write_stream(rt, &mut io::writer(rt), b"write standard output", said);
}

// Puts the image into a buffer of its length, and the buffer into the stream.
fn save_by(
    rt: &(impl Files + Print + Eprint),
    settings: Settings,
    registers: &[u32],
    memory: &[u8],
    machine: Machine,
    image: &mut [u8],
) {
    let Settings { form, dropping } = settings;
    let written = match form {
        Form::Newest => image::write(registers, memory, machine, image),
        Form::Old => image::write_old(registers, memory, machine, dropping, image),
    };
    if let Err(refusal) = written {
        return refuse(rt, refusal.number());
    }
    if write_numbered_synced(rt, IMAGE_OUT, b"write the image", image) {
        print(rt, form);
    }
}

fn save(
    rt: &(impl Files + Print + Eprint),
    settings: Settings,
    registers: &[u32],
    memory: &[u8],
    machine: Machine,
)
    requires { length memory.now ≤ memory_bytes }
{
    let mut image = [0u8; LONGEST_IMAGE];
    let size = image_size(Shape {
        form: settings.form,
        blocks: (memory.len() / BLOCK_BYTES) as u16,
    });
    save_by(rt, settings, registers, memory, machine, &mut image[..size]);
}

// Reads the machine, and writes it.
fn convert(rt: &(impl Files + Print + Eprint), settings: Settings, image: &[u8], memory: &mut [u8])
    requires { length memory.old ≤ memory_bytes }
{
    let mut registers = [0u32; REGISTER_WORDS];
    match image::read(image, &mut registers, memory) {
        Ok(machine) => save(rt, settings, &registers, memory, machine),
        Err(refusal) => refuse(rt, refusal.number()),
    }
}

// Reads an image and goes on with it: as the runner does, but with the refusals said here.
fn load(rt: &(impl Input + Files + Print + Eprint), settings: Settings) {
    let mut image = [0u8; IMAGE_ROOM];
    let Ok(length) = read_stream(rt, &mut rt.reader(), b"read the image", &mut image) else {
        return;
    };
    let size = memory_of(length);
    if answer::bad_memory(size) {
        return refuse(rt, Refusal::Length.number());
    }
    let mut memory = [0u8; MEMORY_BYTES];
    convert(rt, settings, &image[..length], &mut memory[..size]);
}

// The number that argument i gives, if it gives one. As the runner's: programs are no libraries of one another.
fn number_at(rt: &impl Env, i: usize) -> Option<u32> {
    let mut text = [0u8; 4096];
    let length = rt.arg(i, &mut text).ok()?;
    text::number_of(&text[..length])
}

// Takes the arguments, two decimal numbers that the command gives: OLD DROP.
fn main(rt: HostRuntime) {
    let (Some(old), Some(drop)) = (number_at(&rt, 1), number_at(&rt, 2)) else {
        complain(&rt, b"the converter takes two numbers: old, drop");
        return;
    };
    let settings = Settings {
        form: if old == 0 { Form::Newest } else { Form::Old },
        dropping: drop != 0,
    };
    load(&rt, settings);
}
