// The prefixes of the formats: what the first part of a word is.

pub const PREFIX_R: u32 = 0b00;

pub const PREFIX_I: u32 = 0b010;

pub const PREFIX_MOVEI: u32 = 0b01100;

pub const PREFIX_J: u32 = 0b01110;

pub const PREFIX_C: u32 = 0b01111;

pub const PREFIX_M: u32 = 0b10;
