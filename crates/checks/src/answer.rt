// What a call answers, and what it leaves.
ghost use Rattle.std.specs.Prelude.{◌≡◌, true, false};
ghost use Rattle.checks.specs.Codes.{refusal_code, code_of, value_of, is_resumed};

use hart::record::Hart;

// What a call that is accepted answers: a value, or that SRET goes on at the hart's new pc instead of returning to the caller.
// Kept: no Option: Resumed is a success of its own, and not a value that is missing.
#[derive(Clone, Copy, Debug, PartialEq, Eq)]
pub enum Success {
    Value(u64),
    Resumed,
}

// Why a call is refused, by the names of the SBI text.
#[derive(Clone, Copy, Debug, PartialEq, Eq)]
pub enum Refusal {
    Failed,
    NotSupported,
    InvalidParam,
    InvalidAddress,
    NoShmem,
}

// What a call answers.
pub type Answer = Result<Success, Refusal>;

impl Refusal {
    // Its SBI error code.
    pub fn code(self) -> i64
        ensures { result ≡ refusal_code self }
    {
        match self {
            Refusal::Failed => -1,
            Refusal::NotSupported => -2,
            Refusal::InvalidParam => -3,
            Refusal::InvalidAddress => -5,
            Refusal::NoShmem => -9,
        }
    }
}

// An answer's SBI error code: 0 for success.
// Kept: the requests of `hypervisor` have the same function over their own refusals.
pub fn code(a: Answer) -> i64
    ensures { result ≡ code_of a }
{
    match a {
        Ok(_) => 0,
        Err(refusal) => refusal.code(),
    }
}

// An answer's SBI value: 0 where it has none.
pub fn value(a: Answer) -> u64
    ensures { result ≡ value_of a }
{
    match a {
        Ok(Success::Value(v)) => v,
        _ => 0,
    }
}

// Whether the hart goes on at its new pc instead of returning to the caller.
pub fn is_resumed(a: Answer) -> bool
    ensures { result ≡ is_resumed a }
{
    a == Ok(Success::Resumed)
}

// What a call, a stoppable run, a change of lines or a trap gives back: the answer, the record that it leaves, how many steps were made
// (0 but for an accepted FID 2 or 3), whether these were all, and how many words its register writes said of the bits that they dropped.
// Kept: steps and finished beside one another: the C interface tells both of every call.
#[derive(Clone, Copy)]
pub struct Outcome {
    pub answer: Answer,
    pub hart: Hart,
    pub steps: u64,
    pub finished: bool,
    pub told: usize,
}

impl Outcome {
    // A refusal: the record stays, no step is made and nothing is told.
    pub fn refused(hart: Hart, refusal: Refusal) -> Outcome
        ensures { result ≡ record { answer = Err refusal; hart = hart; steps = 0; finished = false; told = 0 } }
    {
        Outcome {
            answer: Err(refusal),
            hart,
            steps: 0,
            finished: false,
            told: 0,
        }
    }

    // Done, with no steps to count: the record that is left, and how many words were told.
    pub fn done(hart: Hart, success: Success, told: usize) -> Outcome
        ensures { result ≡ record { answer = Ok success; hart = hart; steps = 0; finished = true; told = told } }
    {
        Outcome {
            answer: Ok(success),
            hart,
            steps: 0,
            finished: true,
            told,
        }
    }
}
