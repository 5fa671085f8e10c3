// The register file of the eight threads, in the lent register file. Its functions take it and a thread's number, and are no methods of a
// struct of both: such a method would have to say of each part what it leaves, and the struct would hold what is only lent.
ghost use Rattle.std.specs.Prelude.{◌≡◌, ◌+◌, ◌<◌};
ghost use Rattle.execution.specs.Registers.{scalar, vector, with_scalar, with_vector, with_lanes_on, with_program_counter, InRegisters};

use machine::{LANE_MASK, PROGRAM_COUNTER};
use std::array;

pub fn scalar(regs: &[u32], t: usize, i: u32) -> u32
    requires { InRegisters regs.now t × (i < 64) }
    ensures { result ≡ scalar regs.now t i }
{
    regs[64 * t + i as usize]
}

pub fn set_scalar(regs: &mut [u32], t: usize, i: u32, x: u32)
    requires { InRegisters regs.old t × (i < 64) }
    ensures { regs.new ≡ with_scalar regs.old t i x }
{
    let place = 64 * t + i as usize;
    regs[place] = x;
}

pub fn vector(regs: &[u32], t: usize, i: u32) -> [u32; 16]
    requires { InRegisters regs.now t × (i < 64) }
    ensures { result ≡ vector regs.now t i }
{
    let first = 512 + 1024 * t + 16 * (i as usize);
    array::from_fn(|j| regs[first + j])
}

// Every lane, whatever lanes are on.
pub fn set_vector(regs: &mut [u32], t: usize, i: u32, v: [u32; 16])
    requires { InRegisters regs.old t × (i < 64) }
    ensures { regs.new ≡ with_vector regs.old t i v }
{
    let first = 512 + 1024 * t + 16 * (i as usize);
    // By a loop: with `copy_from_slice` the compiler moves the lanes through memory, and a loop of vector adds takes twice the instructions.
    for (j, x) in v.iter().enumerate() {
        regs[first + j] = *x;
    }
}

// The lanes that are on.
#[tactic(auto, unfolding(crate::specs::Registers::with_lanes_on))]
pub fn set_lanes_on(regs: &mut [u32], t: usize, i: u32, v: [u32; 16])
    requires { InRegisters regs.old t × (i < 64) }
    ensures { regs.new ≡ with_lanes_on regs.old t i v }
{
    let mask = scalar(regs, t, LANE_MASK);
    let old = vector(regs, t, i);
    set_vector(regs, t, i, vector::blend(mask, v, old));
}

// s63 moves on from the word's own address.
pub fn advance(regs: &mut [u32], t: usize, pc: u32)
    requires { InRegisters regs.old t × (pc < 65536) }
    ensures { regs.new ≡ with_program_counter regs.old t (pc + 4) }
{
    set_scalar(regs, t, PROGRAM_COUNTER, pc + 4);
}
