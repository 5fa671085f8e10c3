// Minutes of the day: readings of a clock, and the minutes skipped between two of them. What is kept is the minute of the last call that
// was not refused, if there was one.
ghost use Rattle.std.specs.Prelude.{false, ◌≡◌};
ghost use Rattle.answer.specs.Refusal.{number_of};
ghost use Rattle.night.specs.Clock.{skipped};
ghost use Rattle.night.specs.Refusal.{bad_minute, clock_number};

use answer::Refusal;

// The minutes of a day, and the fewest bytes of a memory: it has a word of relays at byte 64.
const DAY_MINUTES: u32 = 1440;

const MEMORY_LEAST: usize = 128;

// Whether the minute now, or the one kept, is none of a day.
fn bad_minute(kept: Option<u32>, minute: u32) -> bool
    ensures { result ≡ bad_minute kept minute }
{
    DAY_MINUTES <= minute || kept.is_some_and(|last| DAY_MINUTES <= last)
}

// Refuses a call before its run is judged: the bytes of its memory, or one of the two minutes.
#[tactic(auto, unfolding(crate::specs::Refusal::clock_number, answer::specs::Refusal::first_that_applies))]
pub fn clock_verdict(bytes: usize, kept: Option<u32>, minute: u32) -> Result<(), Refusal>
    ensures { number_of result ≡ clock_number bytes kept minute }
{
    if bytes < MEMORY_LEAST {
        return Err(Refusal::SmallMemory);
    }
    if bad_minute(kept, minute) {
        return Err(Refusal::Minute);
    }
    Ok(())
}

// The minutes strictly between the one kept and the one now, forward round midnight; none where a fall-back is marked.
#[tactic(auto, unfolding(crate::specs::Clock::skipped))]
pub fn skipped_minutes(kept: Option<u32>, minute: u32, marked: bool) -> u32
    requires { bad_minute kept minute ≡ false }
    ensures { result ≡ skipped kept minute marked }
{
    match kept {
        Some(last) if !marked && last != minute => (minute + DAY_MINUTES - last) % DAY_MINUTES - 1,
        _ => 0,
    }
}
