// The scalar registers of a thread that instructions use without naming them.

// s59: the lanes that are on.
pub const LANE_MASK: u32 = 59;

// s62: where a subroutine returns to.
pub const LINK: u32 = 62;

// s63: the address of the next word.
pub const PROGRAM_COUNTER: u32 = 63;
