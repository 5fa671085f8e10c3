// Whether a thread is running.
ghost use Rattle.std.specs.Prelude.{◌≡◌};
ghost use Rattle.thread_entry.specs.Status.{is_running};

use crate::status::Status;

pub fn is_running(status: Status) -> bool
    ensures { result ≡ is_running status }
{
    matches!(status, Status::Running)
}
