// Whether the numbers that a status carries are in range.
ghost use Rattle.std.specs.Prelude.{◌≡◌};
ghost use Rattle.thread_entry.specs.Status.{limits, carries_in_range};

use thread_entry::{GREATEST_BARRIER, Limits, Status};

// What document 01 lets a record hold.
pub(crate) fn standard() -> Limits
    ensures { result ≡ limits }
{
    Limits {
        reason: 6,
        barrier: GREATEST_BARRIER,
    }
}

// Whether the numbers that it carries are in range.
pub(crate) fn carries_in_range(status: Status, limits: Limits) -> bool
    ensures { result ≡ carries_in_range limits status }
{
    match status {
        Status::Idle | Status::Running | Status::Ended => true,
        Status::Trapped(reason) => (1..=limits.reason).contains(&reason),
        Status::Waiting(id, count) => id <= limits.barrier && (1..=8).contains(&count),
    }
}
