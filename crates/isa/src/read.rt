// Words read into instructions: by format, since each has fields and tests of its own.
ghost use Rattle.std.specs.Prelude.{◌≡◌};
ghost use Rattle.isa.specs.Answer.{reading};
ghost use Rattle.isa.specs.Read.{as_r, as_i, as_movei, as_j, as_c, as_m, read_r, read_i, read_movei, read_j, read_c, read_m, read};

use crate::instruction::{
    ControlOp, Instruction, JumpOp, MemoryOp, MoveiOp, Operation, Unreadable,
};
use crate::{field, opcode, rule};
use word_layout::{PREFIX_C, PREFIX_I, PREFIX_J, PREFIX_M, PREFIX_MOVEI, PREFIX_R};

#[tactic(auto, unfolding(crate::specs::Read::as_r, crate::specs::Read::guarded, crate::specs::Test::all))]
fn as_r(w: u32, op: Operation) -> Result<Instruction, Unreadable>
    ensures { reading result ≡ as_r w op }
{
    let flags = w / 2 % 8;
    let d = w / 0x40000 % 64;
    let a = w / 0x1000 % 64;
    let b = w / 0x40 % 64;
    // Before the bit l is looked at, so that the compiler finds the flags by the opcode.
    let allowed = rule::r_allows(op, flags, d, b);
    if w / 0x10 % 2 == 1 {
        return Err(Unreadable::NotFitted);
    }
    if (w / 0x20 % 2 == 0) & (w % 2 == 0) & allowed {
        Ok(Instruction::R { op, flags, d, a, b })
    } else {
        Err(Unreadable::Undefined)
    }
}

#[tactic(auto, unfolding(crate::specs::Read::as_i, crate::specs::Read::guarded, crate::specs::Test::all))]
fn as_i(w: u32, op: Operation) -> Result<Instruction, Unreadable>
    ensures { reading result ≡ as_i w op }
{
    let flags = w / 2 % 4;
    let d = w / 0x40000 % 64;
    let a = w / 0x1000 % 64;
    let immediate = word_layout::short_signed(w);
    if (w % 2 == 0) & rule::i_allows(op, flags, d) {
        Ok(Instruction::I {
            op,
            flags,
            d,
            a,
            immediate,
        })
    } else {
        Err(Unreadable::Undefined)
    }
}

#[tactic(auto, unfolding(crate::specs::Read::as_movei, crate::specs::Read::guarded, crate::specs::Test::all))]
fn as_movei(w: u32, op: MoveiOp) -> Result<Instruction, Unreadable>
    ensures { reading result ≡ as_movei w op }
{
    let flag = w / 2 % 2;
    let d = w / 0x40000 % 64;
    let immediate = field::movei_number(op, w);
    if (w % 2 == 0) & rule::movei_allows(flag, d) {
        Ok(Instruction::Movei {
            op,
            flag,
            d,
            immediate,
        })
    } else {
        Err(Unreadable::Undefined)
    }
}

#[tactic(auto, unfolding(crate::specs::Read::as_j, crate::specs::Read::guarded))]
fn as_j(w: u32, op: JumpOp) -> Result<Instruction, Unreadable>
    ensures { reading result ≡ as_j w op }
{
    let register = w / 0x40000 % 64;
    let offset = word_layout::long_signed(w);
    if rule::j_allows(op, register, offset) {
        Ok(Instruction::J {
            op,
            register,
            offset,
        })
    } else {
        Err(Unreadable::Undefined)
    }
}

#[tactic(auto, unfolding(crate::specs::Read::as_c, crate::specs::Read::guarded, crate::specs::Test::all))]
fn as_c(w: u32, op: ControlOp) -> Result<Instruction, Unreadable>
    ensures { reading result ≡ as_c w op }
{
    let first = w / 0x40000 % 64;
    let second = w / 0x1000 % 64;
    if (w % 0x1000 == 0) & rule::c_allows(op, first, second) {
        Ok(Instruction::C { op, first, second })
    } else {
        Err(Unreadable::Undefined)
    }
}

#[tactic(auto, unfolding(crate::specs::Read::as_m, crate::specs::Read::guarded, crate::specs::Test::all))]
fn as_m(w: u32, op: MemoryOp) -> Result<Instruction, Unreadable>
    ensures { reading result ≡ as_m w op }
{
    let register = w / 0x40000 % 64;
    let base = w / 0x1000 % 64;
    let offset = word_layout::short_signed(w);
    if w / 2 % 4 != 0 {
        return Err(Unreadable::NotFitted);
    }
    if (w % 2 == 0) & rule::m_allows(op, register) {
        Ok(Instruction::M {
            op,
            register,
            base,
            offset,
        })
    } else {
        Err(Unreadable::Undefined)
    }
}

#[tactic(auto, unfolding(crate::specs::Read::read_r, crate::specs::Read::listed))]
fn read_r(w: u32) -> Result<Instruction, Unreadable>
    ensures { reading result ≡ read_r w }
{
    let opcode = (w / 0x1000000 % 64) as u8;
    match opcode::of_r(opcode) {
        Some(op) => as_r(w, op),
        None if opcode::unfitted(opcode) => Err(Unreadable::NotFitted),
        None => Err(Unreadable::Undefined),
    }
}

#[tactic(auto, using(crate::proofs::Lookup::refused_or), unfolding(crate::specs::Read::read_i, crate::specs::Read::listed))]
fn read_i(w: u32) -> Result<Instruction, Unreadable>
    ensures { reading result ≡ read_i w }
{
    let op = opcode::of_r((w / 0x1000000 % 32) as u8).ok_or(Unreadable::Undefined)?;
    as_i(w, op)
}

#[tactic(auto, using(crate::proofs::Lookup::refused_or), unfolding(crate::specs::Read::read_movei, crate::specs::Read::listed))]
fn read_movei(w: u32) -> Result<Instruction, Unreadable>
    ensures { reading result ≡ read_movei w }
{
    let op = opcode::of_movei((w / 0x1000000 % 8) as u8).ok_or(Unreadable::Undefined)?;
    as_movei(w, op)
}

#[tactic(auto, using(crate::proofs::Lookup::refused_or), unfolding(crate::specs::Read::read_j, crate::specs::Read::listed))]
fn read_j(w: u32) -> Result<Instruction, Unreadable>
    ensures { reading result ≡ read_j w }
{
    let op = opcode::of_j((w / 0x1000000 % 8) as u8).ok_or(Unreadable::Undefined)?;
    as_j(w, op)
}

#[tactic(auto, using(crate::proofs::Lookup::refused_or), unfolding(crate::specs::Read::read_c, crate::specs::Read::listed))]
fn read_c(w: u32) -> Result<Instruction, Unreadable>
    ensures { reading result ≡ read_c w }
{
    let op = opcode::of_c((w / 0x1000000 % 8) as u8).ok_or(Unreadable::Undefined)?;
    as_c(w, op)
}

#[tactic(auto, using(crate::proofs::Lookup::refused_or), unfolding(crate::specs::Read::read_m, crate::specs::Read::listed))]
fn read_m(w: u32) -> Result<Instruction, Unreadable>
    ensures { reading result ≡ read_m w }
{
    let op = opcode::of_m((w / 0x1000000 % 64) as u8).ok_or(Unreadable::Undefined)?;
    as_m(w, op)
}

// What a word is read as. No word is of two formats, so that the frequent ones can come first.
pub fn read_word(w: u32) -> Result<Instruction, Unreadable>
    ensures { reading result ≡ read w }
{
    if w / 0x40000000 == PREFIX_R {
        return read_r(w);
    }
    if w / 0x40000000 == PREFIX_M {
        return read_m(w);
    }
    if w / 0x20000000 == PREFIX_I {
        return read_i(w);
    }
    if w / 0x8000000 == PREFIX_MOVEI {
        return read_movei(w);
    }
    if w / 0x8000000 == PREFIX_J {
        return read_j(w);
    }
    if w / 0x8000000 == PREFIX_C {
        return read_c(w);
    }
    Err(Unreadable::Undefined)
}
