// Where an access goes.
ghost use Rattle.std.specs.Prelude.{◌≡◌, ◌%◌, ◌≤◌, ◌<◌, ◌^◌, eqb};
ghost use Rattle.memory.specs.Attempt.{of_result};
ghost use Rattle.memory.specs.Place.{biased, place};

use answer::Reason;

// The address with 2^32 added, so that it is never negative. The sign by hand: the sum of two i64 would take four conversions more.
fn biased(base: u32, offset: u32) -> usize
    ensures { result ≡ biased base offset }
{
    if 2147483648 <= offset {
        (base as usize) + (offset as usize)
    } else {
        (base as usize) + (4294967296 + (offset as usize))
    }
}

// The alignments in use have arms of their own: a remainder by a literal is a mask, and any other a division.
fn is_multiple(address: usize, alignment: usize) -> bool
    requires { 0 < alignment }
    ensures { result ≡ eqb (address % alignment) 0 }
{
    match alignment {
        1 => true,
        2 => address % 2 == 0,
        4 => address % 4 == 0,
        _ => address % alignment == 0,
    }
}

// The place of `size` bytes in a memory of `length` bytes, at an address that must be a multiple of `alignment`.
pub fn locate(
    base: u32,
    offset: u32,
    alignment: usize,
    size: usize,
    length: usize,
) -> Result<usize, Reason>
    requires { (0 < alignment) × (size ≤ 64) × (length < 2 ^ 63) }
    ensures { of_result result ≡ place alignment size length (biased base offset) }
{
    let address = biased(base, offset);
    let inside = (4294967296 <= address) & (address + size <= 4294967296 + length);
    if !is_multiple(address, alignment) {
        return Err(Reason::Misaligned);
    }
    if !inside {
        return Err(Reason::OutsideMemory);
    }
    Ok(address - 4294967296)
}
