// Where a thread waits, and with which count.
ghost use Rattle.std.specs.Prelude.{◌≡◌};
ghost use Rattle.thread_entry.specs.Status.{waits_at, waits_otherwise};

use crate::status::Status;

// Whether it waits at a barrier.
pub fn waits_at(status: Status, id: u8) -> bool
    ensures { result ≡ waits_at id status }
{
    matches!(status, Status::Waiting(i, _) if i == id)
}

// Whether it waits at a barrier with another count.
pub fn waits_otherwise(status: Status, id: u8, count: u8) -> bool
    ensures { result ≡ waits_otherwise id count status }
{
    matches!(status, Status::Waiting(i, c) if i == id && c != count)
}
