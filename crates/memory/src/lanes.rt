// Loads and stores of sixteen lanes, four bytes each.
ghost use Rattle.std.specs.Prelude.{◌≡◌, cond, ◌+◌, ◌≤◌, length};
ghost use Rattle.little_endian.specs.Numbers.{with_number};
ghost use Rattle.memory.specs.Operation.{lanes_at, with_lanes, load_lanes, of_lanes, store_result, store_lanes};

use crate::bytes::{read32, write32};
use crate::place::locate;
use answer::Reason;
use std::array;

// What the address of a vector form must be a multiple of.
const ALIGNMENT: usize = 4;

// How many bytes of it must be in memory, whatever lanes are on.
const SIZE: usize = 64;

fn read_lanes(memory: &[u8], a: usize) -> [u32; 16]
    requires { a + 64 ≤ length memory.now }
    ensures { result ≡ lanes_at memory.now a }
{
    array::from_fn(|j| read32(memory, a + 4 * j))
}

pub fn load_lanes(memory: &[u8], base: u32, offset: u32) -> Result<[u32; 16], Reason>
    ensures { of_lanes result ≡ load_lanes memory.now base offset }
{
    let from = locate(base, offset, ALIGNMENT, SIZE, memory.len())?;
    Ok(read_lanes(memory, from))
}

fn write_lane(memory: &mut [u8], a: usize, on: bool, w: u32)
    requires { a + 4 ≤ length memory.old }
    ensures { memory.new ≡ cond on (with_number 4 memory.old a w) memory.old }
{
    if on {
        write32(memory, a, w);
    }
}

fn write_lanes(memory: &mut [u8], a: usize, mask: u32, v: [u32; 16])
    requires { a + 64 ≤ length memory.old }
    ensures { memory.new ≡ with_lanes memory.old a mask v }
{
    for (j, w) in v.iter().enumerate() {
        write_lane(memory, a + 4 * j, vector::is_on(mask, j), *w);
    }
}

pub fn store_lanes(
    memory: &mut [u8],
    base: u32,
    offset: u32,
    mask: u32,
    v: [u32; 16],
) -> Result<(), Reason>
    ensures { store_result result memory.new ≡ store_lanes memory.old base offset mask v }
{
    let to = locate(base, offset, ALIGNMENT, SIZE, memory.len())?;
    write_lanes(memory, to, mask, v);
    Ok(())
}
