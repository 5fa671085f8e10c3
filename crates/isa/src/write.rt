// Instructions written into words, by format, since each has fields and tests of its own.
// The tests of opcodes and of R's and I's flags stand as the definition has them, since packing asks for room, and decide nothing: every
// opcode of R, MOVEI, J, C and M has room, an opcode of R that has none in a word of I has no flags there either, and flags that an
// operation allows have room.
ghost use Rattle.std.specs.Prelude.{◌≡◌};
ghost use Rattle.isa.specs.Answer.{writing};
ghost use Rattle.isa.specs.Write.{write_r, write_i, write_movei, write_j, write_c, write_m, write};

use crate::instruction::{ControlOp, Instruction, JumpOp, MemoryOp, MoveiOp, Operation};
use crate::{field, opcode, pack, rule};

fn write_r(op: Operation, flags: u32, d: u32, a: u32, b: u32) -> Option<u32>
    ensures { writing result ≡ write_r op flags d a b }
{
    let opcode = opcode::r_opcode(op);
    if rule::r_allows(op, flags, d, b)
        & (opcode < 64)
        & (d < 64)
        & (a < 64)
        & (b < 64)
        & (flags < 8)
    {
        Some(pack::r(opcode, d, a, b, flags))
    } else {
        None
    }
}

fn write_i(op: Operation, flags: u32, d: u32, a: u32, immediate: u32) -> Option<u32>
    ensures { writing result ≡ write_i op flags d a immediate }
{
    let opcode = opcode::r_opcode(op);
    if rule::i_allows(op, flags, d)
        & field::fits::<0x100>(immediate)
        & (opcode < 32)
        & (d < 64)
        & (a < 64)
        & (flags < 4)
    {
        Some(pack::i(opcode, d, a, immediate % 512, flags))
    } else {
        None
    }
}

fn write_movei(op: MoveiOp, flag: u32, d: u32, immediate: u32) -> Option<u32>
    ensures { writing result ≡ write_movei op flag d immediate }
{
    let opcode = opcode::movei_opcode(op);
    if rule::movei_allows(flag, d)
        & field::movei_fits(op, immediate)
        & (opcode < 8)
        & (d < 64)
        & (flag < 2)
    {
        Some(pack::movei(opcode, d, immediate % 65536, flag))
    } else {
        None
    }
}

fn write_j(op: JumpOp, register: u32, offset: u32) -> Option<u32>
    ensures { writing result ≡ write_j op register offset }
{
    let opcode = opcode::j_opcode(op);
    if rule::j_allows(op, register, offset)
        & field::fits::<0x20000>(offset)
        & (opcode < 8)
        & (register < 64)
    {
        Some(pack::j(opcode, register, offset % 0x40000))
    } else {
        None
    }
}

fn write_c(op: ControlOp, first: u32, second: u32) -> Option<u32>
    ensures { writing result ≡ write_c op first second }
{
    let opcode = opcode::c_opcode(op);
    if rule::c_allows(op, first, second) & (opcode < 8) & (first < 64) & (second < 64) {
        Some(pack::c(opcode, first, second))
    } else {
        None
    }
}

fn write_m(op: MemoryOp, register: u32, base: u32, offset: u32) -> Option<u32>
    ensures { writing result ≡ write_m op register base offset }
{
    let opcode = opcode::m_opcode(op);
    if rule::m_allows(op, register)
        & field::fits::<0x100>(offset)
        & (opcode < 64)
        & (register < 64)
        & (base < 64)
    {
        Some(pack::m(opcode, register, base, offset % 512))
    } else {
        None
    }
}

// The word of an instruction, where it has one.
#[tactic(auto, unfolding(crate::specs::Write::write))]
pub fn write_word(i: Instruction) -> Option<u32>
    ensures { writing result ≡ write i }
{
    match i {
        Instruction::R { op, flags, d, a, b } => write_r(op, flags, d, a, b),
        Instruction::I {
            op,
            flags,
            d,
            a,
            immediate,
        } => write_i(op, flags, d, a, immediate),
        Instruction::Movei {
            op,
            flag,
            d,
            immediate,
        } => write_movei(op, flag, d, immediate),
        Instruction::J {
            op,
            register,
            offset,
        } => write_j(op, register, offset),
        Instruction::C { op, first, second } => write_c(op, first, second),
        Instruction::M {
            op,
            register,
            base,
            offset,
        } => write_m(op, register, base, offset),
    }
}
