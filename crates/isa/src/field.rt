// The numbers that a MOVEI word's field and signed fields stand for.
ghost use Rattle.std.specs.Prelude.{◌≡◌, ◌*◌, ◌<◌, ◌≤◌};
ghost use Rattle.word_layout.specs.Layout.{signed, fits_signed, field, immediate_movei};
ghost use Rattle.isa.specs.Number.{number_movei, fits_movei};

use crate::instruction::MoveiOp;

// The number that a signed field of n stands for, as `word_layout` has it within it: the form that it opens takes any HALF and n, and tests n.
fn signed_number<const HALF: u32>(n: u32) -> u32
    requires { (1 ≤ HALF) × (HALF ≤ 0x40000000) × (n < 2 * HALF) }
    ensures { result ≡ signed HALF n }
{
    ((n + HALF) % (2 * HALF)).wrapping_sub(HALF)
}

// The number of a MOVEI word: signed for movei alone.
pub fn movei_number(op: MoveiOp, w: u32) -> u32
    ensures { result ≡ number_movei op (field w immediate_movei) }
{
    match op {
        MoveiOp::Low | MoveiOp::High => w / 4 % 65536,
        MoveiOp::Whole => signed_number::<0x8000>(w / 4 % 65536),
    }
}

// Whether a number is one that a MOVEI word's field stands for.
#[tactic(auto, unfolding(crate::specs::Number::fits_movei, word_layout::specs::Layout::fits_signed))]
pub fn movei_fits(op: MoveiOp, n: u32) -> bool
    ensures { result ≡ fits_movei op n }
{
    match op {
        MoveiOp::Low | MoveiOp::High => n % 65536 == n,
        MoveiOp::Whole => fits::<0x8000>(n),
    }
}

// Whether a number is one that a signed field stands for. HALF is what its sign bit weighs.
#[tactic(auto, unfolding(word_layout::specs::Layout::fits_signed))]
pub fn fits<const HALF: u32>(n: u32) -> bool
    requires { (1 ≤ HALF) × (HALF ≤ 0x40000000) }
    ensures { result ≡ fits_signed HALF n }
{
    signed_number::<HALF>(n % (2 * HALF)) == n
}
