// Whether a thread is waiting.
ghost use Rattle.std.specs.Prelude.{◌≡◌};
ghost use Rattle.thread_entry.specs.Status.{is_waiting};

use crate::status::Status;

pub fn is_waiting(status: Status) -> bool
    ensures { result ≡ is_waiting status }
{
    matches!(status, Status::Waiting(..))
}
