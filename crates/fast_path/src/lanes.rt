// Words on vectors. Those that write lanes are tried where every lane is on, and left to the slow path where one is off.
ghost use Rattle.std.specs.Prelude.{◌≡◌, ◌+◌, ◌/◌, ◌%◌, ◌^◌, ◌<◌, ◌≤◌, true, false, MatchOption, ◌⊎◌};
ghost use Rattle.alu.specs.Binary.{is_float};
ghost use Rattle.compares.specs.Outcome.{answers_of};
ghost use Rattle.execution.specs.Registers.{vector, with_lanes_on, with_program_counter, InRegisters};
ghost use Rattle.isa.specs.Table.{row_r, row_m};
ghost use Rattle.machine.specs.State.{program_counter_register};
ghost use Rattle.vector.specs.Lanes.{binary_lanes, splatted};
ghost use Rattle.word_layout.specs.Layout.{field, first_register, second_register, third_register};
ghost use Rattle.fast_path.specs.Action.{HasOpcode, TriedStore};
ghost use Rattle.fast_path.specs.Lanes.{all_on, PutsLanes, Combines, ComparesLanes, TriedLanes};
ghost use Rattle.fast_path.specs.Types.{Compare, Eq, Lt, Ult, LoadVector, StoreVector};

use crate::{field, registers};
use isa::{BinaryOp, CompareOp};
use machine::LANE_MASK;

// Whether every lane of a thread is on.
fn all_on(regs: &[u32], t: usize) -> bool
    requires { InRegisters regs.now t }
    ensures { result ≡ all_on regs.now t }
{
    registers::scalar(regs, t, LANE_MASK) % 65536 == 65535
}

// The vector in bits 23-18 gets lanes, every one of which is on.
fn put(regs: &mut [u32], t: usize, pc: u32, w: u32, v: [u32; 16]) -> bool
    requires { InRegisters regs.old t × (pc < 65536) × (all_on regs.old t ≡ true) }
    ensures { (result ≡ true) × (regs.new ≡ with_program_counter (with_lanes_on regs.old t (field w first_register) v) t (pc + 4)) }
{
    registers::set_vector(regs, t, field::first(w), v);
    registers::go_on(regs, t, pc)
}

// What an operation on whole numbers makes of lanes x and y.
fn combine(
    regs: &mut [u32],
    t: usize,
    pc: u32,
    w: u32,
    op: BinaryOp,
    x: [u32; 16],
    y: [u32; 16],
) -> bool
    requires { InRegisters regs.old t × (pc < 65536) × (all_on regs.old t ≡ true) × (is_float op ≡ false)
        × PutsLanes t w regs.old (binary_lanes op x y) }
    ensures { TriedLanes t pc w regs.old result regs.new }
{
    put(regs, t, pc, w, vector::each_integer(op, x, y))
}

// Two vectors. Operations for which the processor has no instruction are left to the slow path.
fn combine_vectors(
    regs: &mut [u32],
    t: usize,
    pc: u32,
    w: u32,
    opcode: u8,
    x: [u32; 16],
    y: [u32; 16],
) -> bool
    requires { InRegisters regs.old t × (pc < 65536) × (all_on regs.old t ≡ true) × Combines t w regs.old opcode x y }
    ensures { TriedLanes t pc w regs.old result regs.new }
{
    match opcode {
        1 => combine(regs, t, pc, w, BinaryOp::Or, x, y),
        2 => combine(regs, t, pc, w, BinaryOp::And, x, y),
        3 => combine(regs, t, pc, w, BinaryOp::Xor, x, y),
        4 => combine(regs, t, pc, w, BinaryOp::Add, x, y),
        5 => combine(regs, t, pc, w, BinaryOp::Sub, x, y),
        6 => combine(regs, t, pc, w, BinaryOp::Mullo, x, y),
        _ => false,
    }
}

// A vector and a number. It can be shifted too: every lane by the same. It has a table of its own: with one for both, of operands that are
// loaded in two ways, the compiler makes no vector instructions (docs/SPEED.md).
fn combine_number(
    regs: &mut [u32],
    t: usize,
    pc: u32,
    w: u32,
    opcode: u8,
    x: [u32; 16],
    n: u32,
) -> bool
    requires { InRegisters regs.old t × (pc < 65536) × (all_on regs.old t ≡ true) × Combines t w regs.old opcode x (splatted n) }
    ensures { TriedLanes t pc w regs.old result regs.new }
{
    let y = registers::splat(n);
    match opcode {
        1 => combine(regs, t, pc, w, BinaryOp::Or, x, y),
        2 => combine(regs, t, pc, w, BinaryOp::And, x, y),
        3 => combine(regs, t, pc, w, BinaryOp::Xor, x, y),
        4 => combine(regs, t, pc, w, BinaryOp::Add, x, y),
        5 => combine(regs, t, pc, w, BinaryOp::Sub, x, y),
        6 => combine(regs, t, pc, w, BinaryOp::Mullo, x, y),
        9 => combine(regs, t, pc, w, BinaryOp::Ashr, x, y),
        10 => combine(regs, t, pc, w, BinaryOp::Shr, x, y),
        11 => combine(regs, t, pc, w, BinaryOp::Shl, x, y),
        _ => false,
    }
}

fn binary_vectors(regs: &mut [u32], t: usize, pc: u32, w: u32) -> bool
    requires { InRegisters regs.old t × (pc < 65536) × (w / 2 ^ 24 < 64) × (w % 2 ^ 6 ≡ 0b1110) × (field w first_register < program_counter_register) }
    ensures { TriedLanes t pc w regs.old result regs.new }
{
    if !all_on(regs, t) {
        return false;
    }
    let x = registers::vector(regs, t, field::second(w));
    let y = registers::vector(regs, t, field::third(w));
    combine_vectors(regs, t, pc, w, (w / 0x1000000) as u8, x, y)
}

fn binary_number(regs: &mut [u32], t: usize, pc: u32, w: u32, opcode: u8, n: u32) -> bool
    requires { InRegisters regs.old t × (pc < 65536) × Combines t w regs.old opcode (vector regs.old t (field w second_register)) (splatted n) }
    ensures { TriedLanes t pc w regs.old result regs.new }
{
    if !all_on(regs, t) {
        return false;
    }
    let x = registers::vector(regs, t, field::second(w));
    combine_number(regs, t, pc, w, opcode, x, n)
}

// The compare of whole numbers that an opcode is, if it is one.
fn compare_at(opcode: u8) -> Option<CompareOp>
    ensures { MatchOption result ((opcode < 14) ⊎ (23 < opcode))
        (λ op. ((row_r (Compare op)).opcode ≡ opcode) × (opcode < 24)) }
{
    match opcode {
        14 => Some(CompareOp::Eq),
        15 => Some(CompareOp::Ne),
        16 => Some(CompareOp::Gt),
        17 => Some(CompareOp::Ge),
        18 => Some(CompareOp::Lt),
        19 => Some(CompareOp::Le),
        20 => Some(CompareOp::Ugt),
        21 => Some(CompareOp::Uge),
        22 => Some(CompareOp::Ult),
        23 => Some(CompareOp::Ule),
        _ => None,
    }
}

// The answers of all lanes of vectors i and k, whose lanes it loads for itself. It is inlined where the compare is known: only then the
// compiler makes vector instructions of the loop. By `compares::collect`, with a closure for each compare, it took 3 to 17 instructions
// more.
#[inline(always)]
fn holding(regs: &[u32], t: usize, op: CompareOp, i: u32, k: u32) -> u32
    requires { InRegisters regs.now t × (i < 64) × (k < 64) }
    ensures { result ≡ answers_of op (vector regs.now t i) (vector regs.now t k) }
{
    let x = registers::vector(regs, t, i);
    let y = registers::vector(regs, t, k);
    let mut r: u32 = 0;
    for (j, a) in x.iter().enumerate() {
        r |= compares::flags(ordering::compare(op, *a, y[j])) & (1 << j);
    }
    r
}

// One for each compare that the processor has: `holding`, inlined, would stand ten times in `answers`.
fn equal(regs: &[u32], t: usize, i: u32, k: u32) -> u32
    requires { InRegisters regs.now t × (i < 64) × (k < 64) }
    ensures { result ≡ answers_of Eq (vector regs.now t i) (vector regs.now t k) }
{
    holding(regs, t, CompareOp::Eq, i, k)
}

fn signed_below(regs: &[u32], t: usize, i: u32, k: u32) -> u32
    requires { InRegisters regs.now t × (i < 64) × (k < 64) }
    ensures { result ≡ answers_of Lt (vector regs.now t i) (vector regs.now t k) }
{
    holding(regs, t, CompareOp::Lt, i, k)
}

fn unsigned_below(regs: &[u32], t: usize, i: u32, k: u32) -> u32
    requires { InRegisters regs.now t × (i < 64) × (k < 64) }
    ensures { result ≡ answers_of Ult (vector regs.now t i) (vector regs.now t k) }
{
    holding(regs, t, CompareOp::Ult, i, k)
}

// The same of any compare of whole numbers; those of floats don't come here.
fn answers(regs: &[u32], t: usize, op: CompareOp, i: u32, k: u32) -> u32
    requires { InRegisters regs.now t × (i < 64) × (k < 64) × ((row_r (Compare op)).opcode < 24) }
    ensures { result ≡ answers_of op (vector regs.now t i) (vector regs.now t k) }
{
    match op {
        CompareOp::Eq => equal(regs, t, i, k),
        CompareOp::Ne => 65535 - equal(regs, t, i, k),
        CompareOp::Gt => signed_below(regs, t, k, i),
        CompareOp::Ge => 65535 - signed_below(regs, t, i, k),
        CompareOp::Lt => signed_below(regs, t, i, k),
        CompareOp::Le => 65535 - signed_below(regs, t, k, i),
        CompareOp::Ugt => unsigned_below(regs, t, k, i),
        CompareOp::Uge => 65535 - unsigned_below(regs, t, i, k),
        CompareOp::Ult => unsigned_below(regs, t, i, k),
        CompareOp::Ule => 65535 - unsigned_below(regs, t, k, i),
        CompareOp::Feq
        | CompareOp::Fne
        | CompareOp::Fgt
        | CompareOp::Fge
        | CompareOp::Flt
        | CompareOp::Fle => 0,
    }
}

// The scalar in bits 23-18 gets a bit a lane that is on.
fn compare_vectors(regs: &mut [u32], t: usize, pc: u32, w: u32, opcode: u8) -> bool
    requires { InRegisters regs.old t × (pc < 65536)
        × ComparesLanes t w regs.old opcode (vector regs.old t (field w second_register)) (vector regs.old t (field w third_register)) }
    ensures { TriedLanes t pc w regs.old result regs.new }
{
    let Some(op) = compare_at(opcode) else {
        return false;
    };
    let mask = registers::scalar(regs, t, LANE_MASK);
    let yes = answers(regs, t, op, field::second(w), field::third(w));
    registers::set_scalar(regs, t, field::first(w), yes & mask);
    registers::go_on(regs, t, pc)
}

// R words, by their flags.
fn r_word(regs: &mut [u32], t: usize, pc: u32, w: u32) -> bool
    requires { InRegisters regs.old t × (pc < 65536) × (w / 2 ^ 24 < 64) × (field w first_register < program_counter_register) }
    ensures { TriedLanes t pc w regs.old result regs.new }
{
    let opcode = (w / 0x1000000) as u8;
    match field::flags_r(w) {
        0b1110 => binary_vectors(regs, t, pc, w),
        0b0110 => compare_vectors(regs, t, pc, w, opcode),
        0b1100 => {
            let n = registers::scalar(regs, t, field::third(w));
            binary_number(regs, t, pc, w, opcode, n)
        }
        _ => false,
    }
}

// I words, by their flags.
fn i_word(regs: &mut [u32], t: usize, pc: u32, w: u32) -> bool
    requires { InRegisters regs.old t × (pc < 65536) × (64 ≤ w / 2 ^ 24) × (w / 2 ^ 24 < 96) × (field w first_register < program_counter_register) }
    ensures { TriedLanes t pc w regs.old result regs.new }
{
    let opcode = (w / 0x1000000 - 0x40) as u8;
    if field::flags_i(w) != 0b110 {
        return false;
    }
    binary_number(regs, t, pc, w, opcode, word_layout::short_signed(w))
}

// A load or a store that traps is left to the slow path, which finds the trap again.
fn load(regs: &mut [u32], memory: &[u8], t: usize, pc: u32, w: u32) -> bool
    requires { InRegisters regs.old t × (pc < 65536) × (all_on regs.old t ≡ true) × HasOpcode w 0x80 64 (row_m LoadVector).opcode
        × (w % 2 ^ 3 ≡ 0) }
    ensures { TriedStore t pc w regs.old memory.now result regs.new memory.now }
{
    let base = registers::scalar(regs, t, field::second(w));
    let offset = word_layout::short_signed(w);
    match memory::load_lanes(memory, base, offset) {
        Ok(lanes) => put(regs, t, pc, w, lanes),
        Err(_) => false,
    }
}

// The lane mask is a number that the compiler knows: it then stores vectors and tests no lane.
fn store(regs: &mut [u32], memory: &mut [u8], t: usize, pc: u32, w: u32) -> bool
    requires { InRegisters regs.old t × (pc < 65536) × (all_on regs.old t ≡ true) × HasOpcode w 0x80 64 (row_m StoreVector).opcode
        × (w % 2 ^ 3 ≡ 0) }
    ensures { TriedStore t pc w regs.old memory.old result regs.new memory.new }
{
    let base = registers::scalar(regs, t, field::second(w));
    let offset = word_layout::short_signed(w);
    let v = registers::vector(regs, t, field::first(w));
    match memory::store_lanes(memory, base, offset, 65535, v) {
        Ok(()) => registers::go_on(regs, t, pc),
        Err(_) => false,
    }
}

// A load or a store of lanes. The compiler is to keep it out of the loop of scalar words.
#[inline(never)]
pub fn access(regs: &mut [u32], memory: &mut [u8], t: usize, pc: u32, w: u32) -> bool
    requires { InRegisters regs.old t × (pc < 65536) × (field w first_register < program_counter_register) }
    ensures { TriedStore t pc w regs.old memory.old result regs.new memory.new }
{
    if field::flags_i(w) != 0 {
        return false;
    }
    if !all_on(regs, t) {
        return false;
    }
    let top = (w / 0x1000000) as u8;
    match top {
        0x88 => load(regs, memory, t, pc, w),
        0xA8 => store(regs, memory, t, pc, w),
        _ => false,
    }
}

// R and I words, by their format. It is kept out of that loop too.
#[inline(never)]
pub fn word(regs: &mut [u32], t: usize, pc: u32, w: u32) -> bool
    requires { InRegisters regs.old t × (pc < 65536) × (field w first_register < program_counter_register) }
    ensures { TriedLanes t pc w regs.old result regs.new }
{
    if w < 0x40000000 {
        r_word(regs, t, pc, w)
    } else if w < 0x60000000 {
        i_word(regs, t, pc, w)
    } else {
        false
    }
}
