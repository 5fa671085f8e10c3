// The interpreter's test program: runs the figures of the papers that are run, and prints what happened, a line a figure.
#![tactic(auto)]

#[cfg(test)]
mod parts;

use answer::{REGISTER_WORDS, Refusal};
use interpreter::{Run, Stop};
use thread_entry::Status;

fn say(rt: &impl Print, text: &str) {
    let _ = rt.print(text);
}

fn say_number(rt: &impl Print, n: u32) {
    let _ = rt.print(n);
}

fn say_ending(rt: &impl Print, run: Run) {
    match run.stop {
        Stop::Stopped => say(rt, "stopped"),
        Stop::Stuck => say(rt, "stuck"),
        Stop::Spent => say(rt, "spent"),
    }
    say(rt, " after ");
    say_number(rt, run.issues);
    say(rt, "\n");
}

// Starts the threads of a mask and runs a program once, on 64 bytes of memory.
fn run_once(
    rt: &impl Print,
    registers: &mut [u32; REGISTER_WORDS],
    program: &[u32],
    mask: u32,
    budget: u32,
) -> Result<(), Refusal> {
    let machine = interpreter::start(mask, registers)?;
    let mut memory = [0u8; 64];
    let run = interpreter::run(program, registers, &mut memory, machine, budget)?;
    say_ending(rt, run);
    Ok(())
}

// v1[j] = j, v3[j] = 7
fn set_lanes(registers: &mut [u32; REGISTER_WORDS]) {
    for (lane, j) in registers[528..544].iter_mut().zip(0..16) {
        *lane = j;
    }
    registers[560..576].fill(7);
}

fn say_lanes(rt: &impl Print, registers: &[u32; REGISTER_WORDS]) {
    for lane in &registers[560..576] {
        say(rt, " ");
        say_number(rt, *lane);
    }
}

// "s59 = 5, v1[j] = j, s2 = 10, v3 all 7: add v3,v1,s2 gives 10 and 12 in lanes 0 and 2, else 7."
fn masked_add(rt: &impl Print, registers: &mut [u32; REGISTER_WORDS]) -> Result<(), Refusal> {
    let machine = interpreter::start(1, registers)?;
    registers[59] = 5;
    registers[2] = 10;
    set_lanes(registers);
    let mut memory = [0u8; 64];
    interpreter::run(&[0x040C108C], registers, &mut memory, machine, 1)?;
    say_lanes(rt, registers);
    say(rt, "\n");
    Ok(())
}

fn say_status(rt: &impl Print, status: Status) {
    match status {
        Status::Running => say(rt, "good\n"),
        Status::Trapped(reason) => {
            say(rt, "reason ");
            say_number(rt, reason as u32);
            say(rt, "\n");
        }
        Status::Idle => say(rt, "idle\n"),
        Status::Ended => say(rt, "ended\n"),
        Status::Waiting(_, _) => say(rt, "waiting\n"),
    }
}

// One load or store on 64 bytes of memory: s1 is the base, s59 says which lanes are on.
fn access(
    rt: &impl Print,
    registers: &mut [u32; REGISTER_WORDS],
    word: u32,
    base: u32,
    lanes: u32,
) -> Result<(), Refusal> {
    let machine = interpreter::start(1, registers)?;
    registers[1] = base;
    registers[59] = lanes;
    let mut memory = [0u8; 64];
    let run = interpreter::run(&[word], registers, &mut memory, machine, 1)?;
    say_status(rt, run.machine.threads[0].status);
    Ok(())
}

// "0x70000000 alone, mask 7, budget 7: issues 0,1,2,0,1,2,0, spent." One issue at a time, so that each thread is seen.
fn issue_order(rt: &impl Print, registers: &mut [u32; REGISTER_WORDS]) -> Result<(), Refusal> {
    let mut machine = interpreter::start(7, registers)?;
    let mut memory = [0u8; 64];
    for _ in 0..7 {
        let run = interpreter::run(&[0x70000000], registers, &mut memory, machine, 1)?;
        machine = run.machine;
        say(rt, " ");
        say_number(rt, machine.last as u32);
    }
    say(rt, ", ");
    Ok(())
}

// "Memory 64, load32: address 60 good, 62 reason 1, 64 and -4 reason 2, base 0xFFFFFFFC plus 4 reason 2."
fn loads(rt: &impl Print, registers: &mut [u32; REGISTER_WORDS]) -> Result<(), Refusal> {
    say(rt, "memory 64, load32 at 60: ");
    access(rt, registers, 0x82081000, 60, 0xFFFF)?;
    say(rt, "memory 64, load32 at 62: ");
    access(rt, registers, 0x82081000, 62, 0xFFFF)?;
    say(rt, "memory 64, load32 at 64: ");
    access(rt, registers, 0x82081000, 64, 0xFFFF)?;
    say(rt, "memory 64, load32 at -4: ");
    access(rt, registers, 0x82081FE0, 0, 0xFFFF)?;
    say(rt, "memory 64, load32 at 0xFFFFFFFC plus 4: ");
    access(rt, registers, 0x82081020, 0xFFFFFFFC, 0xFFFF)
}

// Document 02, T-04: "in a 64-byte memory address 0 is good, 4 gives reason 2."
fn vector_loads(rt: &impl Print, registers: &mut [u32; REGISTER_WORDS]) -> Result<(), Refusal> {
    say(rt, "memory 64, loadv at 0: ");
    access(rt, registers, 0x88081000, 0, 0xFFFF)?;
    say(rt, "memory 64, loadv at 4: ");
    access(rt, registers, 0x88081000, 4, 0xFFFF)?;
    say(rt, "memory 64, loadv at 2: ");
    access(rt, registers, 0x88081000, 2, 0xFFFF)?;
    say(rt, "memory 64, loadv at -4: ");
    access(rt, registers, 0x88081FE0, 0, 0xFFFF)
}

// "All 64 bytes are still range-checked": also where no lane is on.
fn vector_stores(rt: &impl Print, registers: &mut [u32; REGISTER_WORDS]) -> Result<(), Refusal> {
    say(rt, "memory 64, no lane on, storev at 0: ");
    access(rt, registers, 0xA8081000, 0, 0)?;
    say(rt, "memory 64, no lane on, storev at 4: ");
    access(rt, registers, 0xA8081000, 4, 0)
}

// "budget 7: issues 0,1,2,0,1,2,0, spent. Budget 0: spent, 0."
fn turns(rt: &impl Print, registers: &mut [u32; REGISTER_WORDS]) -> Result<(), Refusal> {
    say(rt, "0x70000000, mask 7, budget 7: issues");
    issue_order(rt, registers)?;
    run_once(rt, registers, &[0x70000000], 7, 7)?;
    say(rt, "0x70000000, mask 7, budget 0: ");
    run_once(rt, registers, &[0x70000000], 7, 0)
}

// "0x62040004, 0x78001000, 0x7A000000: budget 100: mask 3 stops after 6; mask 1 is stuck after 2."
fn meetings(rt: &impl Print, registers: &mut [u32; REGISTER_WORDS]) -> Result<(), Refusal> {
    let program = [0x62040004u32, 0x78001000, 0x7A000000];
    say(rt, "0x62040004 0x78001000 0x7A000000, mask 3, budget 100: ");
    run_once(rt, registers, &program, 3, 100)?;
    say(rt, "0x62040004 0x78001000 0x7A000000, mask 1, budget 100: ");
    run_once(rt, registers, &program, 1, 100)
}

fn main(rt: HostRuntime) -> Result<(), Refusal> {
    let mut registers = [0u32; REGISTER_WORDS];
    say(
        &rt,
        "s59 = 5, v1[j] = j, s2 = 10, v3 all 7: add v3,v1,s2 gives",
    );
    masked_add(&rt, &mut registers)?;
    loads(&rt, &mut registers)?;
    vector_loads(&rt, &mut registers)?;
    vector_stores(&rt, &mut registers)?;
    turns(&rt, &mut registers)?;
    meetings(&rt, &mut registers)
}
