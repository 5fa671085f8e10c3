// Signed fields of a word, as the numbers that they stand for.
ghost use Rattle.std.specs.Prelude.{◌≡◌, ◌*◌, ◌<◌, ◌≤◌};
ghost use Rattle.word_layout.specs.Layout.{signed, signed_field, immediate_i, offset_j};

// The number that a signed field of n stands for. HALF, which its sign bit weighs, is added and taken away again, of which the compiler
// makes two shifts.
fn signed_number<const HALF: u32>(n: u32) -> u32
    requires { (1 ≤ HALF) × (HALF ≤ 0x40000000) × (n < 2 * HALF) }
    ensures { result ≡ signed HALF n }
{
    ((n + HALF) % (2 * HALF)).wrapping_sub(HALF)
}

// The signed number of an I or M word.
pub fn short_signed(w: u32) -> u32
    ensures { result ≡ signed_field w immediate_i }
{
    signed_number::<256>(w / 8 % 512)
}

// The signed number of a J word.
pub fn long_signed(w: u32) -> u32
    ensures { result ≡ signed_field w offset_j }
{
    signed_number::<0x20000>(w % 0x40000)
}
