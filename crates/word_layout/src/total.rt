// The number that a signed field stands for, for other crates: of any weight of its sign bit, and any number.
ghost use Rattle.std.specs.Prelude.{◌≡◌, ◌*◌, ◌%◌, ◌^◌, ◌<◌, ◌≤◌};
ghost use Rattle.word_layout.specs.Layout.{signed};

// Of a field's own numbers, as in field.rt, the second clause speaks; what any other stands for is held modulo 2^32.
#[tactic(auto, unfolding(crate::specs::Layout::signed))]
pub fn signed_number<const HALF: u32>(n: u32) -> u32
    ensures { (result ≡ signed HALF n % 2 ^ 32) × (1 ≤ HALF → HALF ≤ 0x40000000 → n < 2 * HALF → result ≡ signed HALF n) }
{
    if n < HALF {
        return n;
    }
    n.wrapping_sub(HALF.checked_mul(2).unwrap_or(0))
}
