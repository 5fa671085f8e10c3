// The word of a line.
#![tactic(auto, unfolding(crate::specs::Meaning::meaning_with))]

ghost use Rattle.std.specs.Prelude.{◌≡◌, ◌≤◌, false};
ghost use Rattle.statement.specs.Register.{reg};
ghost use Rattle.statement.specs.Types.{R, I, Movei, J, C, M};
ghost use Rattle.statement.specs.Meaning.{bit as Meaning·bit, is_vector_m, same_letter, lettered as Meaning·lettered};
ghost use Rattle.statement.specs.Meaning.{offset_from, word_for, word_with, word_in};

use crate::operands::{OperandValues, is_operand};
use crate::registers::Register;
use isa::{ControlOp, Instruction, JumpOp, MemoryOp, MoveiOp, Operation, slots_of, write_word};

fn bit(vector: bool) -> u32
    ensures value { result ≡ Meaning·bit vector }
    ensures small { result ≤ 1 }
{
    u32::from(vector)
}

fn is_vector(op: MemoryOp) -> bool
    ensures { result ≡ is_vector_m op }
{
    matches!(op, MemoryOp::LoadVector | MemoryOp::StoreVector)
}

fn same_letter(wanted: bool, vector: bool) -> bool
    ensures { result ≡ same_letter wanted vector }
{
    wanted == vector
}

fn lettered(right: bool, i: Instruction) -> Option<u32>
    ensures { word_in result ≡ word_for (Meaning·lettered right i) }
{
    if right { write_word(i) } else { None }
}

fn offset(has: bool, target: u32, at: u32) -> u32
    ensures { result ≡ offset_from has target at }
{
    if has { target.wrapping_sub(at) } else { 0 }
}

// The words of the six formats, with these registers.

fn r_word(op: Operation, x: Register, y: Register, z: Register) -> Option<u32>
    ensures { word_in result ≡ word_with (R op 0 0 0 0) x y z 0 0 }
{
    let flags = 4 * bit(x.vector) + 2 * bit(y.vector) + bit(z.vector);
    lettered(
        true,
        Instruction::R {
            op,
            flags,
            d: x.number,
            a: y.number,
            b: z.number,
        },
    )
}

fn i_word(op: Operation, x: Register, y: Register, number: u32) -> Option<u32>
    ensures { word_in result ≡ word_with (I op 0 0 0 0) x y (reg false 0) number 0 }
{
    let flags = 2 * bit(x.vector) + bit(y.vector);
    lettered(
        true,
        Instruction::I {
            op,
            flags,
            d: x.number,
            a: y.number,
            immediate: number,
        },
    )
}

fn movei_word(op: MoveiOp, x: Register, number: u32) -> Option<u32>
    ensures { word_in result ≡ word_with (Movei op 0 0 0) x (reg false 0) (reg false 0) number 0 }
{
    lettered(
        true,
        Instruction::Movei {
            op,
            flag: bit(x.vector),
            d: x.number,
            immediate: number,
        },
    )
}

fn j_word(op: JumpOp, x: Register, number: u32, at: u32) -> Option<u32>
    ensures { word_in result ≡ word_with (J op 0 0) x (reg false 0) (reg false 0) number at }
{
    let slots = slots_of(Instruction::J {
        op,
        register: 0,
        offset: 0,
    });
    lettered(
        !x.vector,
        Instruction::J {
            op,
            register: x.number,
            offset: offset(is_operand(slots.second), number, at),
        },
    )
}

fn c_word(op: ControlOp, x: Register, y: Register) -> Option<u32>
    ensures { word_in result ≡ word_with (C op 0 0) x y (reg false 0) 0 0 }
{
    lettered(
        !x.vector & !y.vector,
        Instruction::C {
            op,
            first: x.number,
            second: y.number,
        },
    )
}

fn m_word(op: MemoryOp, x: Register, y: Register, number: u32) -> Option<u32>
    ensures { word_in result ≡ word_with (M op 0 0 0) x y (reg false 0) number 0 }
{
    lettered(
        same_letter(is_vector(op), x.vector) & !y.vector,
        Instruction::M {
            op,
            register: x.number,
            base: y.number,
            offset: number,
        },
    )
}

// The word of an instruction of this name, with these operands and this number modulo 2^32, that stands at an address.
pub fn word_of(name: Instruction, f: OperandValues, number: u32, at: u32) -> Option<u32>
    ensures { word_in result ≡ word_with name f.first f.second f.third number at }
{
    let x = f.first;
    let y = f.second;
    let z = f.third;
    match name {
        Instruction::R { op, .. } => r_word(op, x, y, z),
        Instruction::I { op, .. } => i_word(op, x, y, number),
        Instruction::Movei { op, .. } => movei_word(op, x, number),
        Instruction::J { op, .. } => j_word(op, x, number, at),
        Instruction::C { op, .. } => c_word(op, x, y),
        Instruction::M { op, .. } => m_word(op, x, y, number),
    }
}
