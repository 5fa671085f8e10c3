// Answers as the numbers that the calls give back: 0, or a number of document 01's table.
ghost use Rattle.std.specs.Prelude.{◌/◌, ◌%◌, ◌^◌, ◌≡◌};
ghost use Rattle.answer.specs.Answer.{given};
ghost use Rattle.image.specs.Answer.{answered};
ghost use Rattle.interpreter.specs.Answer.{ending_of as stop_of};
ghost use Rattle.capi.specs.Answer.{number_of, ending_of};

use answer::Refusal;
use interpreter::Stop;

// What a call answers.
pub fn number<T>(answer: &Result<T, Refusal>) -> u32
    ensures { result ≡ number_of (answered answer.now) }
{
    match answer {
        Ok(_) => 0,
        Err(refusal) => refusal.number() as u32,
    }
}

// How a run that is not refused ended: the numbers of korvammel.h.
pub fn ending(stop: Stop) -> u32
    ensures { result ≡ ending_of (given (stop_of stop)) }
{
    match stop {
        Stop::Stopped => 1,
        Stop::Stuck => 2,
        Stop::Spent => 3,
    }
}

// A number of 64 bits as two of 32.
pub fn low_half(n: u64) -> u32
    ensures { result ≡ n % 2 ^ 32 }
{
    (n % 0x100000000) as u32
}

pub fn high_half(n: u64) -> u32
    ensures { result ≡ n / 2 ^ 32 }
{
    (n / 0x100000000) as u32
}
