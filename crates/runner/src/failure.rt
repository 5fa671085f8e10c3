// Why the runner ends before it has printed all that it was to print.
use answer::Refusal;
use files::Failed;

// A call refused, or a stream failed, which was complained of where it did.
#[derive(Clone, Copy, Debug, PartialEq, Eq)]
pub enum Failure {
    Refused(Refusal),
    Told,
}

impl From<Refusal> for Failure {
    fn from(refusal: Refusal) -> Failure {
        Failure::Refused(refusal)
    }
}

impl From<Failed> for Failure {
    fn from(_read: Failed) -> Failure {
        Failure::Told
    }
}

// The answer of a call that complains of what it can't write.
pub fn told(written: bool) -> Result<(), Failure> {
    if written { Ok(()) } else { Err(Failure::Told) }
}
