// The operations of the tables as instructions with every field 0, by format and opcode: what a name stands for.
ghost use Rattle.std.specs.Prelude.{◌≡◌};
ghost use Rattle.isa.specs.Found.{found};
ghost use Rattle.isa.specs.Template.{template_at};

use crate::instruction::Instruction;
use crate::opcode::{of_c, of_j, of_m, of_movei, of_r};
use crate::rule::has_immediate;

// The instruction of a format, by its number from 0 for R to 5 for M, and an opcode. A number, as in the rows of `names`: the edit
// `memory_as_format_6` gives one that no enum of six has.
pub fn template_of(format: u8, opcode: u8) -> Option<Instruction>
    ensures { found result ≡ template_at format opcode }
{
    match format {
        0 => of_r(opcode).map(|op| Instruction::R {
            op,
            flags: 0,
            d: 0,
            a: 0,
            b: 0,
        }),
        1 => of_r(opcode)
            .filter(|&op| has_immediate(op))
            .map(|op| Instruction::I {
                op,
                flags: 0,
                d: 0,
                a: 0,
                immediate: 0,
            }),
        2 => of_movei(opcode).map(|op| Instruction::Movei {
            op,
            flag: 0,
            d: 0,
            immediate: 0,
        }),
        3 => of_j(opcode).map(|op| Instruction::J {
            op,
            register: 0,
            offset: 0,
        }),
        4 => of_c(opcode).map(|op| Instruction::C {
            op,
            first: 0,
            second: 0,
        }),
        5 => of_m(opcode).map(|op| Instruction::M {
            op,
            register: 0,
            base: 0,
            offset: 0,
        }),
        _ => None,
    }
}
