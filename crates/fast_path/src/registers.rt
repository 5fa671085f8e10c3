// The registers of a thread for this crate, whose numbers are in range: `execution` opens its own for any numbers, and tests for a place.
ghost use Rattle.std.specs.Prelude.{◌≡◌, ◌+◌, ◌<◌, true};
ghost use Rattle.execution.specs.Registers.{scalar, vector, with_scalar, with_vector, with_program_counter, InRegisters};
ghost use Rattle.vector.specs.Lanes.{splatted};

use machine::PROGRAM_COUNTER;
use std::array;

pub fn scalar(regs: &[u32], t: usize, i: u32) -> u32
    requires { InRegisters regs.now t × (i < 64) }
    ensures { result ≡ scalar regs.now t i }
{
    regs[64 * t + i as usize]
}

pub fn set_scalar(regs: &mut [u32], t: usize, i: u32, x: u32)
    requires { InRegisters regs.old t × (i < 64) }
    ensures { regs.new ≡ with_scalar regs.old t i x }
{
    let place = 64 * t + i as usize;
    regs[place] = x;
}

pub fn vector(regs: &[u32], t: usize, i: u32) -> [u32; 16]
    requires { InRegisters regs.now t × (i < 64) }
    ensures { result ≡ vector regs.now t i }
{
    let first = 512 + 1024 * t + 16 * (i as usize);
    array::from_fn(|j| regs[first + j])
}

// Every lane, whatever lanes are on.
pub fn set_vector(regs: &mut [u32], t: usize, i: u32, v: [u32; 16])
    requires { InRegisters regs.old t × (i < 64) }
    ensures { regs.new ≡ with_vector regs.old t i v }
{
    let first = 512 + 1024 * t + 16 * (i as usize);
    // By a loop: with `copy_from_slice` the compiler moves the lanes through memory, and a loop of vector adds takes twice the instructions.
    for (j, x) in v.iter().enumerate() {
        regs[first + j] = *x;
    }
}

// A number as sixteen equal lanes, as `execution` has it.
#[tactic(auto, unfolding(vector::specs::Lanes::splatted, vector::specs::Lanes::tab))]
pub fn splat(x: u32) -> [u32; 16]
    ensures { result ≡ splatted x }
{
    [x; 16]
}

// s63 moves on from the word's own address.
pub fn advance(regs: &mut [u32], t: usize, pc: u32)
    requires { InRegisters regs.old t × (pc < 65536) }
    ensures { regs.new ≡ with_program_counter regs.old t (pc + 4) }
{
    set_scalar(regs, t, PROGRAM_COUNTER, pc + 4);
}

// The word is done, and the thread goes on with the next one.
pub fn go_on(regs: &mut [u32], t: usize, pc: u32) -> bool
    requires { InRegisters regs.old t × (pc < 65536) }
    ensures { (result ≡ true) × (regs.new ≡ with_program_counter regs.old t (pc + 4)) }
{
    advance(regs, t, pc);
    true
}
