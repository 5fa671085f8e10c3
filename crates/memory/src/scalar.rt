// Loads and stores of scalars.
ghost use Rattle.std.specs.Prelude.{◌≡◌, ◌+◌, ◌≤◌, length};
ghost use Rattle.memory.specs.Attempt.{of_result};
ghost use Rattle.little_endian.specs.Numbers.{number_at, with_number};
ghost use Rattle.memory.specs.Operation.{bytes_loaded, widened, load, bytes_stored, store_result, store};

use crate::bytes::{read8, read16, read32, write8, write16, write32};
use crate::place::locate;
use answer::Reason;
use isa::{LoadOp, StoreOp, UnaryOp};

fn bytes_loaded(op: LoadOp) -> usize
    ensures { result ≡ bytes_loaded op }
{
    match op {
        LoadOp::Load8 => 1,
        LoadOp::Load16 => 2,
        LoadOp::Load32 => 4,
        LoadOp::Load8u => 1,
        LoadOp::Load16u => 2,
    }
}

fn read(op: LoadOp, memory: &[u8], a: usize) -> u32
    requires { a + bytes_loaded op ≤ length memory.now }
    ensures { result ≡ widened op (number_at (bytes_loaded op) memory.now a) }
{
    match op {
        LoadOp::Load8 => alu::unary(UnaryOp::Sext8, read8(memory, a)),
        LoadOp::Load16 => alu::unary(UnaryOp::Sext16, read16(memory, a)),
        LoadOp::Load32 => read32(memory, a),
        LoadOp::Load8u => read8(memory, a),
        LoadOp::Load16u => read16(memory, a),
    }
}

pub fn load(op: LoadOp, memory: &[u8], base: u32, offset: u32) -> Result<u32, Reason>
    ensures { of_result result ≡ load op memory.now base offset }
{
    let size = bytes_loaded(op);
    let from = locate(base, offset, size, size, memory.len())?;
    Ok(read(op, memory, from))
}

fn bytes_stored(op: StoreOp) -> usize
    ensures { result ≡ bytes_stored op }
{
    match op {
        StoreOp::Store8 => 1,
        StoreOp::Store16 => 2,
        StoreOp::Store32 => 4,
    }
}

fn write(op: StoreOp, memory: &mut [u8], a: usize, value: u32)
    requires { a + bytes_stored op ≤ length memory.old }
    ensures { memory.new ≡ with_number (bytes_stored op) memory.old a value }
{
    match op {
        StoreOp::Store8 => write8(memory, a, value),
        StoreOp::Store16 => write16(memory, a, value),
        StoreOp::Store32 => write32(memory, a, value),
    }
}

pub fn store(
    op: StoreOp,
    memory: &mut [u8],
    base: u32,
    offset: u32,
    value: u32,
) -> Result<(), Reason>
    ensures { store_result result memory.new ≡ store op memory.old base offset value }
{
    let size = bytes_stored(op);
    let to = locate(base, offset, size, size, memory.len())?;
    write(op, memory, to, value);
    Ok(())
}
