// The tables: from an opcode to its operation, and back. A `match` compiles to a table in the program's constant data. Each format has its
// own: a trait over them would hold the same rows, with a name more for each.
#![tactic(auto, unfolding(crate::specs::Table::find))]

ghost use Rattle.std.specs.Prelude.{◌≡◌};
ghost use Rattle.isa.specs.Found.{found};
ghost use Rattle.isa.specs.Table.{operation_at, table_r, table_movei, table_j, table_c, table_m, row_r, row_movei, row_j, row_c, row_m, opcode_of, not-fitted-opcodes};
ghost use Rattle.isa.specs.Test.{is_in};
ghost use Rattle.isa.specs.Types.{Binary, Unary, Compare, Load, Store};

use crate::instruction::{
    BinaryOp, CompareOp, ControlOp, Instruction, JumpOp, LoadOp, MemoryOp, MoveiOp, Operation,
    StoreOp, UnaryOp,
};

// The operation that an opcode of each format stands for, if any.
pub fn of_r(opcode: u8) -> Option<Operation>
    ensures { found result ≡ operation_at table_r opcode }
{
    match opcode {
        1 => Some(Operation::Binary(BinaryOp::Or)),
        2 => Some(Operation::Binary(BinaryOp::And)),
        3 => Some(Operation::Binary(BinaryOp::Xor)),
        4 => Some(Operation::Binary(BinaryOp::Add)),
        5 => Some(Operation::Binary(BinaryOp::Sub)),
        6 => Some(Operation::Binary(BinaryOp::Mullo)),
        7 => Some(Operation::Binary(BinaryOp::Mulhi)),
        8 => Some(Operation::Binary(BinaryOp::Mulhu)),
        9 => Some(Operation::Binary(BinaryOp::Ashr)),
        10 => Some(Operation::Binary(BinaryOp::Shr)),
        11 => Some(Operation::Binary(BinaryOp::Shl)),
        12 => Some(Operation::Unary(UnaryOp::Clz)),
        13 => Some(Operation::Unary(UnaryOp::Ctz)),
        14 => Some(Operation::Compare(CompareOp::Eq)),
        15 => Some(Operation::Compare(CompareOp::Ne)),
        16 => Some(Operation::Compare(CompareOp::Gt)),
        17 => Some(Operation::Compare(CompareOp::Ge)),
        18 => Some(Operation::Compare(CompareOp::Lt)),
        19 => Some(Operation::Compare(CompareOp::Le)),
        20 => Some(Operation::Compare(CompareOp::Ugt)),
        21 => Some(Operation::Compare(CompareOp::Uge)),
        22 => Some(Operation::Compare(CompareOp::Ult)),
        23 => Some(Operation::Compare(CompareOp::Ule)),
        24 => Some(Operation::Shuffle),
        25 => Some(Operation::GetLane),
        32 => Some(Operation::Unary(UnaryOp::Move)),
        33 => Some(Operation::Binary(BinaryOp::Fadd)),
        34 => Some(Operation::Binary(BinaryOp::Fsub)),
        35 => Some(Operation::Binary(BinaryOp::Fmul)),
        36 => Some(Operation::Binary(BinaryOp::Fdiv)),
        37 => Some(Operation::Compare(CompareOp::Feq)),
        38 => Some(Operation::Compare(CompareOp::Fne)),
        39 => Some(Operation::Compare(CompareOp::Fgt)),
        40 => Some(Operation::Compare(CompareOp::Fge)),
        41 => Some(Operation::Compare(CompareOp::Flt)),
        42 => Some(Operation::Compare(CompareOp::Fle)),
        43 => Some(Operation::Unary(UnaryOp::Sext8)),
        44 => Some(Operation::Unary(UnaryOp::Sext16)),
        48 => Some(Operation::Unary(UnaryOp::IntToFloat)),
        49 => Some(Operation::Unary(UnaryOp::FloatToInt)),
        _ => None,
    }
}

// Whether an R opcode is one that this core does not fit.
pub fn unfitted(opcode: u8) -> bool
    ensures { result ≡ is_in opcode not-fitted-opcodes }
{
    opcode == 45
}

pub fn of_movei(opcode: u8) -> Option<MoveiOp>
    ensures { found result ≡ operation_at table_movei opcode }
{
    match opcode {
        0 => Some(MoveiOp::Low),
        1 => Some(MoveiOp::High),
        2 => Some(MoveiOp::Whole),
        _ => None,
    }
}

pub fn of_j(opcode: u8) -> Option<JumpOp>
    ensures { found result ≡ operation_at table_j opcode }
{
    match opcode {
        0 => Some(JumpOp::Jmp),
        1 => Some(JumpOp::Jmpsr),
        2 => Some(JumpOp::Jret),
        5 => Some(JumpOp::Beqz),
        6 => Some(JumpOp::Bnez),
        _ => None,
    }
}

pub fn of_c(opcode: u8) -> Option<ControlOp>
    ensures { found result ≡ operation_at table_c opcode }
{
    match opcode {
        0 => Some(ControlOp::Barrier),
        1 => Some(ControlOp::Readcr),
        2 => Some(ControlOp::End),
        _ => None,
    }
}

pub fn of_m(opcode: u8) -> Option<MemoryOp>
    ensures { found result ≡ operation_at table_m opcode }
{
    match opcode {
        0 => Some(MemoryOp::Load(LoadOp::Load8)),
        1 => Some(MemoryOp::Load(LoadOp::Load16)),
        2 => Some(MemoryOp::Load(LoadOp::Load32)),
        4 => Some(MemoryOp::Load(LoadOp::Load8u)),
        5 => Some(MemoryOp::Load(LoadOp::Load16u)),
        8 => Some(MemoryOp::LoadVector),
        32 => Some(MemoryOp::Store(StoreOp::Store8)),
        33 => Some(MemoryOp::Store(StoreOp::Store16)),
        34 => Some(MemoryOp::Store(StoreOp::Store32)),
        40 => Some(MemoryOp::StoreVector),
        _ => None,
    }
}

// The opcode of each operation. Matches, and not numbers at the variants: `Operation` and `MemoryOp` hold others, to which Rust gives no
// number; the edit `bnez_opcode_of_beqz` gives two of J one number, which variants can't have; the rest stand beside these.
pub fn r_opcode(op: Operation) -> u8
    ensures { result ≡ (row_r op).opcode }
{
    match op {
        Operation::Binary(op) => binary_opcode(op),
        Operation::Unary(op) => unary_opcode(op),
        Operation::Compare(op) => compare_opcode(op),
        Operation::Shuffle => 24,
        Operation::GetLane => 25,
    }
}

fn binary_opcode(op: BinaryOp) -> u8
    ensures { result ≡ (row_r (Binary op)).opcode }
{
    match op {
        BinaryOp::Or => 1,
        BinaryOp::And => 2,
        BinaryOp::Xor => 3,
        BinaryOp::Add => 4,
        BinaryOp::Sub => 5,
        BinaryOp::Mullo => 6,
        BinaryOp::Mulhi => 7,
        BinaryOp::Mulhu => 8,
        BinaryOp::Ashr => 9,
        BinaryOp::Shr => 10,
        BinaryOp::Shl => 11,
        BinaryOp::Fadd => 33,
        BinaryOp::Fsub => 34,
        BinaryOp::Fmul => 35,
        BinaryOp::Fdiv => 36,
    }
}

fn unary_opcode(op: UnaryOp) -> u8
    ensures { result ≡ (row_r (Unary op)).opcode }
{
    match op {
        UnaryOp::Clz => 12,
        UnaryOp::Ctz => 13,
        UnaryOp::Move => 32,
        UnaryOp::Sext8 => 43,
        UnaryOp::Sext16 => 44,
        UnaryOp::IntToFloat => 48,
        UnaryOp::FloatToInt => 49,
    }
}

fn compare_opcode(op: CompareOp) -> u8
    ensures { result ≡ (row_r (Compare op)).opcode }
{
    match op {
        CompareOp::Eq => 14,
        CompareOp::Ne => 15,
        CompareOp::Gt => 16,
        CompareOp::Ge => 17,
        CompareOp::Lt => 18,
        CompareOp::Le => 19,
        CompareOp::Ugt => 20,
        CompareOp::Uge => 21,
        CompareOp::Ult => 22,
        CompareOp::Ule => 23,
        CompareOp::Feq => 37,
        CompareOp::Fne => 38,
        CompareOp::Fgt => 39,
        CompareOp::Fge => 40,
        CompareOp::Flt => 41,
        CompareOp::Fle => 42,
    }
}

pub fn movei_opcode(op: MoveiOp) -> u8
    ensures { result ≡ (row_movei op).opcode }
{
    match op {
        MoveiOp::Low => 0,
        MoveiOp::High => 1,
        MoveiOp::Whole => 2,
    }
}

pub fn j_opcode(op: JumpOp) -> u8
    ensures { result ≡ (row_j op).opcode }
{
    match op {
        JumpOp::Jmp => 0,
        JumpOp::Jmpsr => 1,
        JumpOp::Jret => 2,
        JumpOp::Beqz => 5,
        JumpOp::Bnez => 6,
    }
}

pub fn c_opcode(op: ControlOp) -> u8
    ensures { result ≡ (row_c op).opcode }
{
    match op {
        ControlOp::Barrier => 0,
        ControlOp::Readcr => 1,
        ControlOp::End => 2,
    }
}

pub fn m_opcode(op: MemoryOp) -> u8
    ensures { result ≡ (row_m op).opcode }
{
    match op {
        MemoryOp::Load(op) => load_opcode(op),
        MemoryOp::Store(op) => store_opcode(op),
        MemoryOp::LoadVector => 8,
        MemoryOp::StoreVector => 40,
    }
}

fn load_opcode(op: LoadOp) -> u8
    ensures { result ≡ (row_m (Load op)).opcode }
{
    match op {
        LoadOp::Load8 => 0,
        LoadOp::Load16 => 1,
        LoadOp::Load32 => 2,
        LoadOp::Load8u => 4,
        LoadOp::Load16u => 5,
    }
}

fn store_opcode(op: StoreOp) -> u8
    ensures { result ≡ (row_m (Store op)).opcode }
{
    match op {
        StoreOp::Store8 => 32,
        StoreOp::Store16 => 33,
        StoreOp::Store32 => 34,
    }
}

// The opcode of an instruction in its format's table, whether or not it has a word.
pub fn opcode_of(i: Instruction) -> u8
    ensures { result ≡ opcode_of i }
{
    match i {
        Instruction::R { op, .. } | Instruction::I { op, .. } => r_opcode(op),
        Instruction::Movei { op, .. } => movei_opcode(op),
        Instruction::J { op, .. } => j_opcode(op),
        Instruction::C { op, .. } => c_opcode(op),
        Instruction::M { op, .. } => m_opcode(op),
    }
}
