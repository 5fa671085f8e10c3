// Whether a thread is idle.
ghost use Rattle.std.specs.Prelude.{◌≡◌};
ghost use Rattle.thread_entry.specs.Status.{is_idle};

use crate::status::Status;

pub fn is_idle(status: Status) -> bool
    ensures { result ≡ is_idle status }
{
    matches!(status, Status::Idle)
}
