// The operands of an instruction, in field order: a field that is fixed at 0 has none.
ghost use Rattle.std.specs.Prelude.{◌≡◌};
ghost use Rattle.isa.specs.Operands.{three as Operands·three, where-free, slots};
ghost use Rattle.isa.specs.Types.{J, C};

use crate::instruction::{ControlOp, Instruction, JumpOp};
use crate::rule::{c_allows, j_allows, operand_b};

// What an operand is; Nothing where it is left out. Not an Option of three kinds: who reads a line matches all four at once.
#[derive(Clone, Copy, Debug, PartialEq, Eq)]
pub enum Slot {
    ARegister,
    AnImmediate,
    AnAddress,
    Nothing,
}

#[derive(Clone, Copy, Debug, PartialEq, Eq)]
pub struct Slots {
    pub first: Slot,
    pub second: Slot,
    pub third: Slot,
}

fn three(first: Slot, second: Slot, third: Slot) -> Slots
    ensures { result ≡ Operands·three first second third }
{
    Slots {
        first,
        second,
        third,
    }
}

fn free(is: bool, slot: Slot) -> Slot
    ensures { result ≡ where-free is slot }
{
    if is { slot } else { Slot::Nothing }
}

fn j_slots(op: JumpOp) -> Slots
    ensures { result ≡ slots (J op 0 0) }
{
    three(
        free(j_allows(op, 1, 0), Slot::ARegister),
        free(j_allows(op, 0, 1), Slot::AnImmediate),
        Slot::Nothing,
    )
}

fn c_slots(op: ControlOp) -> Slots
    ensures { result ≡ slots (C op 0 0) }
{
    three(
        free(c_allows(op, 1, 0), Slot::ARegister),
        free(c_allows(op, 0, 1), Slot::ARegister),
        Slot::Nothing,
    )
}

// The operands that an instruction has.
pub fn slots_of(i: Instruction) -> Slots
    ensures { result ≡ slots i }
{
    match i {
        Instruction::R { op, .. } => three(
            Slot::ARegister,
            Slot::ARegister,
            free(operand_b(op, 1), Slot::ARegister),
        ),
        Instruction::I { .. } => three(Slot::ARegister, Slot::ARegister, Slot::AnImmediate),
        Instruction::Movei { .. } => three(Slot::ARegister, Slot::AnImmediate, Slot::Nothing),
        Instruction::J { op, .. } => j_slots(op),
        Instruction::C { op, .. } => c_slots(op),
        Instruction::M { .. } => three(Slot::ARegister, Slot::AnAddress, Slot::Nothing),
    }
}
