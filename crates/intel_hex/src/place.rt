// The place of a byte in its word.

// What a word is divided by for its i-th byte, the lowest first.
pub const POWERS: [u32; 4] = [1, 0x100, 0x10000, 0x1000000];
