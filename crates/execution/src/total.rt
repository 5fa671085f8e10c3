// Parts of an issue for other crates, on any numbers: within this one their like ask for numbers in range, and test nothing.
ghost use Rattle.std.specs.Prelude.{◌≡◌, ◌+◌, ◌-◌, ◌%◌, ◌^◌, ◌<◌, min, slice_index, slice_set};
ghost use Rattle.machine.specs.State.{scalar_index, lane_index};
ghost use Rattle.isa.specs.Claims.{HalfWord};
ghost use Rattle.execution.specs.Immediate.{replaced};
ghost use Rattle.execution.specs.Jump.{in_program};
ghost use Rattle.execution.specs.Registers.{scalar, vector, with_scalar, with_vector, with_program_counter};

use isa::MoveiOp;
use machine::PROGRAM_COUNTER;
use std::array;

// The places of a scalar and of a lane. Where a sum has no room it stops at the highest number, which is no slice's place.
fn scalar_place(t: usize, i: u32) -> usize
    ensures { result ≡ min (scalar_index t i) (2 ^ 64 - 1) }
{
    t.saturating_mul(64).saturating_add(i as usize)
}

fn lane_place(t: usize, i: u32, j: usize) -> usize
    ensures { result ≡ min (lane_index t i j) (2 ^ 64 - 1) }
{
    t.saturating_mul(1024)
        .saturating_add(512 + 16 * i as usize)
        .saturating_add(j)
}

// 0 where its place is past the last one.
pub fn scalar(regs: &[u32], t: usize, i: u32) -> u32
    ensures { result ≡ scalar regs.now t i }
{
    regs.get(scalar_place(t, i)).copied().unwrap_or(0)
}

fn lane(regs: &[u32], t: usize, i: u32, j: usize) -> u32
    ensures { result ≡ slice_index regs.now (lane_index t i j) }
{
    regs.get(lane_place(t, i, j)).copied().unwrap_or(0)
}

// Nothing is written where its place is past the last one.
pub fn set_scalar(regs: &mut [u32], t: usize, i: u32, x: u32)
    ensures { regs.new ≡ with_scalar regs.old t i x }
{
    let place = scalar_place(t, i);
    if place < regs.len() {
        regs[place] = x;
    }
}

fn set_lane(regs: &mut [u32], t: usize, i: u32, j: usize, x: u32)
    ensures { regs.new ≡ slice_set regs.old (lane_index t i j) x }
{
    let place = lane_place(t, i, j);
    if place < regs.len() {
        regs[place] = x;
    }
}

// 0 in a lane whose place is past the last one.
pub fn vector(regs: &[u32], t: usize, i: u32) -> [u32; 16]
    ensures { result ≡ vector regs.now t i }
{
    array::from_fn(|j| lane(regs, t, i, j))
}

// Every lane that has a place, whatever lanes are on.
pub fn set_vector(regs: &mut [u32], t: usize, i: u32, v: [u32; 16])
    ensures { regs.new ≡ with_vector regs.old t i v }
{
    for (j, x) in v.iter().enumerate() {
        set_lane(regs, t, i, j, *x);
    }
}

// s63 moves on from the word's own address. A sum that has no room in a register is held modulo 2^32, of which the first clause speaks.
pub fn advance(regs: &mut [u32], t: usize, pc: u32)
    ensures { (regs.new ≡ with_program_counter regs.old t ((pc + 4) % 2 ^ 32))
        × (pc < 65536 → regs.new ≡ with_program_counter regs.old t (pc + 4)) }
{
    set_scalar(regs, t, PROGRAM_COUNTER, pc.wrapping_add(4));
}

// What a move of n makes of a register that held `old`, modulo 2^32 likewise.
pub fn replace(op: MoveiOp, old: u32, n: u32) -> u32
    ensures { (result ≡ replaced op old n % 2 ^ 32) × (HalfWord op n → result ≡ replaced op old n) }
{
    match op {
        MoveiOp::Low => (old / 65536 * 65536).wrapping_add(n),
        MoveiOp::High => n.wrapping_mul(65536).wrapping_add(old % 65536),
        MoveiOp::Whole => n,
    }
}

// Whether a word of the program stands at an address.
pub fn in_program(words: usize, address: u32) -> bool
    ensures { result ≡ in_program words address }
{
    (address % 4 == 0) & ((address as usize) < words.saturating_mul(4))
}
