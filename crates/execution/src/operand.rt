// Operands: words and vector registers.
ghost use Rattle.std.specs.Prelude.{◌≡◌, ◌<◌};
ghost use Rattle.execution.specs.Operand.{source, is_vector, word, lanes, Named};
ghost use Rattle.execution.specs.Registers.{InRegisters};
ghost use Rattle.vector.specs.Lanes.{splatted};

use crate::registers;

// A scalar's word, or the number of a vector register: its lanes are read where they are used. That the number is below 64 stands in the
// contracts, as `Named`: the definitions speak of any.
#[derive(Clone, Copy, Debug, PartialEq, Eq)]
pub enum Source {
    Scalar(u32),
    Vector(u32),
}

pub fn select(regs: &[u32], t: usize, flag: bool, i: u32) -> Source
    requires { InRegisters regs.now t × (i < 64) }
    ensures { (result ≡ source regs.now t flag i) × Named result }
{
    if flag {
        Source::Vector(i)
    } else {
        Source::Scalar(registers::scalar(regs, t, i))
    }
}

// A number as sixteen equal lanes.
#[tactic(auto, unfolding(vector::specs::Lanes::splatted, vector::specs::Lanes::tab))]
pub fn splat(x: u32) -> [u32; 16]
    ensures { result ≡ splatted x }
{
    [x; 16]
}

impl Source {
    pub fn is_vector(self) -> bool
        ensures { result ≡ is_vector self }
    {
        matches!(self, Source::Vector(_))
    }

    pub fn word(self) -> u32
        ensures { result ≡ word self }
    {
        match self {
            Source::Scalar(x) => x,
            Source::Vector(_) => 0,
        }
    }

    pub fn lanes(self, regs: &[u32], t: usize) -> [u32; 16]
        requires { InRegisters regs.now t × Named self }
        ensures { result ≡ lanes regs.now t self }
    {
        match self {
            Source::Scalar(x) => splat(x),
            Source::Vector(i) => registers::vector(regs, t, i),
        }
    }
}
