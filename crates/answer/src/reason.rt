// Why a thread is trapped: the reasons of document 01.
ghost use Rattle.std.specs.Prelude.{◌≡◌};
ghost use Rattle.answer.specs.Reason.{reason_of};

// A reason. Its number, which a record and an image hold, is `number`.
#[derive(Clone, Copy, Debug, PartialEq, Eq)]
pub enum Reason {
    Misaligned,
    OutsideMemory,
    UndefinedWord,
    OutsideProgram,
    BarrierRefused,
    NotFittedWord,
}

impl Reason {
    // Its number, by a match as a refusal's.
    pub fn number(self) -> u8
        ensures { result ≡ reason_of self }
    {
        match self {
            Reason::Misaligned => 1,
            Reason::OutsideMemory => 2,
            Reason::UndefinedWord => 3,
            Reason::OutsideProgram => 4,
            Reason::BarrierRefused => 5,
            Reason::NotFittedWord => 6,
        }
    }
}
