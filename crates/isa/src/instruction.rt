// Operations and instructions, by the format of their words.

// R, and I with an immediate for b: two operands. Those of the float unit, here and below, have no I form.
#[derive(Clone, Copy, Debug, PartialEq, Eq)]
pub enum BinaryOp {
    Or,
    And,
    Xor,
    Add,
    Sub,
    Mullo,
    Mulhi,
    Mulhu,
    Ashr,
    Shr,
    Shl,
    Fadd,
    Fsub,
    Fmul,
    Fdiv,
}

// R: one operand.
#[derive(Clone, Copy, Debug, PartialEq, Eq)]
pub enum UnaryOp {
    Clz,
    Ctz,
    Move,
    Sext8,
    Sext16,
    IntToFloat,
    FloatToInt,
}

// R and I: a test of two operands.
#[derive(Clone, Copy, Debug, PartialEq, Eq)]
pub enum CompareOp {
    Eq,
    Ne,
    Gt,
    Ge,
    Lt,
    Le,
    Ugt,
    Uge,
    Ult,
    Ule,
    Feq,
    Fne,
    Fgt,
    Fge,
    Flt,
    Fle,
}

// The operations of R, and of I: the class, and within it which one.
#[derive(Clone, Copy, Debug, PartialEq, Eq)]
pub enum Operation {
    Binary(BinaryOp),
    Unary(UnaryOp),
    Compare(CompareOp),
    Shuffle,
    GetLane,
}

// MOVEI: which part of a value the immediate replaces.
#[derive(Clone, Copy, Debug, PartialEq, Eq)]
pub enum MoveiOp {
    Low,
    High,
    Whole,
}

#[derive(Clone, Copy, Debug, PartialEq, Eq)]
pub enum JumpOp {
    Jmp,
    Jmpsr,
    Jret,
    Beqz,
    Bnez,
}

#[derive(Clone, Copy, Debug, PartialEq, Eq)]
pub enum ControlOp {
    Barrier,
    Readcr,
    End,
}

#[derive(Clone, Copy, Debug, PartialEq, Eq)]
pub enum LoadOp {
    Load8,
    Load16,
    Load32,
    Load8u,
    Load16u,
}

#[derive(Clone, Copy, Debug, PartialEq, Eq)]
pub enum StoreOp {
    Store8,
    Store16,
    Store32,
}

#[derive(Clone, Copy, Debug, PartialEq, Eq)]
pub enum MemoryOp {
    Load(LoadOp),
    Store(StoreOp),
    LoadVector,
    StoreVector,
}

// An instruction. Its fields may hold what no word has room for. `flags` are the vector flags of d, a and b (R) or of d and a (I),
// d highest. A signed number is held modulo 2^32. Every field has one width, so that those of two formats don't share a place in part,
// and the compiler keeps each in a register.
#[derive(Clone, Copy, Debug, PartialEq, Eq)]
pub enum Instruction {
    R {
        op: Operation,
        flags: u32,
        d: u32,
        a: u32,
        b: u32,
    },
    I {
        op: Operation,
        flags: u32,
        d: u32,
        a: u32,
        immediate: u32,
    },
    Movei {
        op: MoveiOp,
        flag: u32,
        d: u32,
        immediate: u32,
    },
    J {
        op: JumpOp,
        register: u32,
        offset: u32,
    },
    C {
        op: ControlOp,
        first: u32,
        second: u32,
    },
    M {
        op: MemoryOp,
        register: u32,
        base: u32,
        offset: u32,
    },
}

// Why a word is read as no instruction.
#[derive(Clone, Copy, Debug, PartialEq, Eq)]
pub enum Unreadable {
    Undefined,
    NotFitted,
}
