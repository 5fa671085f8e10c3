// An entry as the numbers of the saved image, both ways.
ghost use Rattle.std.specs.Prelude.{◌≡◌};
ghost use Rattle.image.specs.Answer.{answered};
ghost use Rattle.image.specs.Fields.{fields_of, status_of, thread_of};

use answer::Refusal;
use thread_entry::{Status, Thread};

// The numbers of an entry, 0 where its status does not carry them; every entry has a count of turns.
#[derive(Clone, Copy, PartialEq, Eq, Debug)]
pub struct ThreadFields {
    pub status: u8,
    pub reason: u8,
    pub id: u8,
    pub count: u8,
    pub turns: u32,
}

impl From<Thread> for ThreadFields {
    ghost from_gives = { λ thread fields. fields ≡ fields_of thread };

    fn from(thread: Thread) -> ThreadFields {
        let bare = ThreadFields {
            status: 0,
            reason: 0,
            id: 0,
            count: 0,
            turns: thread.turns,
        };
        match thread.status {
            Status::Idle => bare,
            Status::Running => ThreadFields { status: 1, ..bare },
            Status::Ended => ThreadFields { status: 2, ..bare },
            Status::Trapped(reason) => ThreadFields {
                status: 3,
                reason,
                ..bare
            },
            Status::Waiting(id, count) => ThreadFields {
                status: 4,
                id,
                count,
                ..bare
            },
        }
    }
}

// The status that numbers name, if they name one.
fn status_of(fields: ThreadFields) -> Option<Status>
    ensures { result ≡ status_of fields }
{
    match fields.status {
        0 => Some(Status::Idle),
        1 => Some(Status::Running),
        2 => Some(Status::Ended),
        3 => Some(Status::Trapped(fields.reason)),
        4 => Some(Status::Waiting(fields.id, fields.count)),
        _ => None,
    }
}

// The entry that has these numbers, if one has.
impl TryFrom<ThreadFields> for Thread {
    type Error = Refusal;

    ghost try_from_gives = { λ fields read. answered read ≡ thread_of fields };

    fn try_from(fields: ThreadFields) -> Result<Thread, Refusal> {
        let Some(status) = status_of(fields) else {
            return Err(Refusal::Record);
        };
        let thread = Thread::new(status, fields.turns);
        if ThreadFields::from(thread) == fields {
            Ok(thread)
        } else {
            Err(Refusal::Record)
        }
    }
}
