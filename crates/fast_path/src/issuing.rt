// The word of a thread's issue, tried by the fast path.
ghost use Rattle.std.specs.Prelude.{◌≡◌, ◌<◌, ◌≤◌};
ghost use Rattle.answer.specs.Refusal.{program_words};
ghost use Rattle.execution.specs.Issue.{fits};
ghost use Rattle.execution.specs.Jump.{in_program};
ghost use Rattle.execution.specs.Registers.{InRegisters};
ghost use Rattle.isa.specs.Table.{row_m};
ghost use Rattle.fast_path.specs.Action.{HasOpcode, GoesBy, TriedStore, TriedWord, TriedIssue};
ghost use Rattle.fast_path.specs.Types.{Jump, Store};

use crate::action::Action;
use crate::{field, lanes, registers, table};
use answer::{PROGRAM_WORDS, REGISTER_WORDS};
use isa::StoreOp;
use machine::PROGRAM_COUNTER;

// Whether the lengths and the thread are such as a run comes to, and whether a word of the program stands at an address: as `execution` has
// them within it.
fn fits(words: usize, regs: usize, thread: usize) -> bool
    ensures { result ≡ fits words regs thread }
{
    (words <= PROGRAM_WORDS) & (regs == REGISTER_WORDS) & (thread < 8)
}

fn in_program(words: usize, address: u32) -> bool
    requires { words ≤ program_words }
    ensures { result ≡ in_program words address }
{
    (address % 4 == 0) & ((address as usize) < 4 * words)
}

// A thread, an address and a word go as three numbers from here on: contracts speak of each by itself, and to a function that stands apart
// a struct would go by its address.

// The sum wraps: a negative target comes out past the end of every program.
fn jump(words: usize, regs: &mut [u32], t: usize, pc: u32, offset: u32) -> bool
    requires { InRegisters regs.old t × (words ≤ program_words) × (pc < 65536) }
    ensures { GoesBy t pc words 0 regs.old (Jump offset) result regs.new }
{
    let target = pc.wrapping_add(offset);
    if !in_program(words, target) {
        return false;
    }
    registers::set_scalar(regs, t, PROGRAM_COUNTER, target);
    true
}

// The action of a word at address pc whose destination is d.
fn act(words: usize, regs: &mut [u32], t: usize, pc: u32, d: usize, action: Action) -> bool
    requires { InRegisters regs.old t × (words ≤ program_words) × (pc < 65536) × (d < 64) }
    ensures { GoesBy t pc words d regs.old action result regs.new }
{
    match action {
        Action::Write(x) => {
            registers::set_scalar(regs, t, d as u32, x);
            registers::go_on(regs, t, pc)
        }
        Action::Next => registers::go_on(regs, t, pc),
        Action::Jump(offset) => jump(words, regs, t, pc, offset),
        Action::Lanes | Action::Defer => false,
    }
}

// A store that traps is left to the slow path, which finds the trap again.
fn store(regs: &mut [u32], memory: &mut [u8], t: usize, pc: u32, w: u32, op: StoreOp) -> bool
    requires { InRegisters regs.old t × (pc < 65536) × HasOpcode w 0x80 64 (row_m (Store op)).opcode }
    ensures { TriedStore t pc w regs.old memory.old result regs.new memory.new }
{
    if field::flags_i(w) != 0 {
        return false;
    }
    let base = registers::scalar(regs, t, field::second(w));
    let x = registers::scalar(regs, t, field::first(w));
    let offset = word_layout::short_signed(w);
    match memory::store(op, memory, base, offset, x) {
        Ok(()) => registers::go_on(regs, t, pc),
        Err(_) => false,
    }
}

// The word w at address pc. No scalar is written to register 63, so that one test serves all words: the few others that have it in
// bits 23-18 are left to the slow path.
fn word(words: usize, regs: &mut [u32], memory: &mut [u8], t: usize, pc: u32, w: u32) -> bool
    requires { InRegisters regs.old t × (words ≤ program_words) × (pc < 65536) }
    ensures { TriedWord t pc words w regs.old memory.old result regs.new memory.new }
{
    let d = field::first(w) as usize;
    if d == PROGRAM_COUNTER as usize {
        return false;
    }
    let top = (w / 0x1000000) as u8;
    match top {
        0xA0 => store(regs, memory, t, pc, w, StoreOp::Store8),
        0xA1 => store(regs, memory, t, pc, w, StoreOp::Store16),
        0xA2 => store(regs, memory, t, pc, w, StoreOp::Store32),
        0x88 | 0xA8 => lanes::access(regs, memory, t, pc, w),
        _ => match table::action(regs, memory, t, w, top) {
            Action::Lanes => lanes::word(regs, t, pc, w),
            action => act(words, regs, t, pc, d, action),
        },
    }
}

// Tries the word at the thread's s63, for any lengths and any thread number: whether it was executed and the thread goes on, whatever the
// record is. If not, nothing has changed, and the issue is to be made by `execution::issue`.
pub fn try_word(program: &[u32], regs: &mut [u32], memory: &mut [u8], thread: usize) -> bool
    ensures { TriedIssue program.now thread regs.old memory.old result regs.new memory.new }
{
    let words = program.len();
    if !fits(words, regs.len(), thread) {
        return false;
    }
    let pc = registers::scalar(regs, thread, PROGRAM_COUNTER);
    if !in_program(words, pc) {
        return false;
    }
    let w = program[(pc / 4) as usize];
    word(words, regs, memory, thread, pc, w)
}
