// The arguments, eight decimal numbers that the command gives: MASK MEMORY BUDGET RESUME SAVE LOOKS ROWS REST.
use files::complain;
use std::rt::Env;

// Where the machine comes from, by RESUME: it is started (0); or stream 3 has its image (1); or standard input has it (2), and then stream
// 3 has the program.
#[derive(Clone, Copy, Debug, PartialEq, Eq)]
pub enum Origin {
    Started,
    SecondStream,
    StandardInput,
}

impl From<u32> for Origin {
    fn from(number: u32) -> Origin {
        match number {
            0 => Origin::Started,
            2 => Origin::StandardInput,
            _ => Origin::SecondStream,
        }
    }
}

// What a run goes by. A machine that is resumed has its own mask and memory. Of the issues, the first `budget` are made, then `rows` with a
// line for each, and then `rest`.
#[derive(Clone, Copy, Debug, PartialEq, Eq)]
pub struct Settings {
    pub mask: u32,
    pub memory: u32,
    pub budget: u32,
    pub origin: Origin,
    pub save: bool,
    pub looks: bool,
    pub rows: u32,
    pub rest: u32,
}

// The number that argument i gives.
fn number_at(rt: &impl Env, i: usize) -> Option<u32> {
    let mut text = [0u8; 4096];
    let length = rt.arg(i, &mut text).ok()?;
    text::number_of(&text[..length])
}

// The settings that the arguments give, where each gives a number.
fn settings_in(rt: &impl Env) -> Option<Settings> {
    Some(Settings {
        mask: number_at(rt, 1)?,
        memory: number_at(rt, 2)?,
        budget: number_at(rt, 3)?,
        origin: Origin::from(number_at(rt, 4)?),
        save: number_at(rt, 5)? != 0,
        looks: number_at(rt, 6)? != 0,
        rows: number_at(rt, 7)?,
        rest: number_at(rt, 8)?,
    })
}

// The same, and a complaint where they give none.
pub fn read_settings(rt: &(impl Env + Eprint)) -> Option<Settings> {
    let settings = settings_in(rt);
    if settings.is_none() {
        complain(
            rt,
            b"the runner takes eight numbers: mask, memory, budget, resume, save, looks, rows, rest",
        );
    }
    settings
}
