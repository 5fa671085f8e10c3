// What goes to standard error: one line, which the command decides its exit status by.
use std::fmt::InlineText;
use std::{io, str};

// Standard error takes text: bytes that are none are shown as "?".
fn shown(bytes: &[u8]) -> &str {
    str::from_utf8(bytes).unwrap_or("?")
}

// A line about the arguments.
pub fn complain(rt: &impl Eprint, text: &[u8]) {
    let text = shown(text);
    let _ = eprintln!(rt; "korvammel: {text}");
}

// The system's words for an error, without the number that std puts behind them.
fn words(text: &str) -> &str {
    match text.split_once(" (os error ") {
        Some((words, _)) => words,
        None => text,
    }
}

// A line about a stream that a call just failed on, with the system's reason.
pub fn fail(rt: &impl Eprint, what: &[u8], error: io::Error) {
    let what = shown(what);
    let text = InlineText::<320>::of(error);
    let reason = words(text.as_str());
    let _ = eprintln!(rt; "korvammel: can't {what}: {reason}");
}

// By number and not by `Refusal`: what is said of a number that the table has not stays said, and no caller is asked for less.
fn meaning(number: u8) -> &'static str {
    match number {
        1 => "a program is 1 to 16,384 whole words of four bytes",
        3 => "a memory has 64 to 65,536 bytes, a multiple of 64",
        4 => "the image holds a machine that is not well formed, or a number out of range",
        5 => "a mask is 1 to 255",
        9 => {
            "an image has 36,980 bytes, in the old form 36,948, and 68 more for each 64 bytes of memory"
        }
        10 => "an image record has a wrong mark, or a number out of place",
        11 => "the old form holds no counts of turns, and one is not 0: --drop leaves them out",
        12 => "the source or the line is too long or malformed, or the instruction has no word",
        13 => "a label is unknown, repeated or the 257th",
        14 => "parentheses are more than 8 deep, or a number or sum is past 2,147,483,648",
        15 => "it is no record, or its checksum is wrong",
        16 => "its addresses begin before the end of the last record, or go past FFFF",
        17 => "there is no end record, or something behind it",
        _ => "see document 01's table",
    }
}

// A number of the papers' tables, for a line of a text; the command puts the text's name before it.
pub fn refuse_at(rt: &impl Eprint, line: usize, number: u8) {
    let why = meaning(number);
    let _ = eprintln!(rt; "line {line}: {number}: {why}");
}

// A line for a number of document 01's table.
pub fn refuse(rt: &impl Eprint, number: u8) {
    let why = meaning(number);
    let _ = eprintln!(rt; "korvammel: refused {number}: {why}");
}
