// What a request on the page is answered.
ghost use Rattle.std.specs.Prelude.{◌≡◌, ◌^◌, ◌<◌};
ghost use Rattle.hypervisor.specs.Answers.{code_of, value_of, result_of};

// Why a request is refused: the page has another length, a parameter is bad, or every entry is pending.
#[derive(Clone, Copy, Debug, PartialEq, Eq)]
pub enum Refusal {
    Failed,
    InvalidParam,
    Denied,
}

// The value of a request that is done, or why it is refused.
pub type Answer = Result<u64, Refusal>;

impl Refusal {
    // The SBI error code.
    pub fn code(self) -> i64
        ensures { result ≡ code_of (Err self) }
    {
        match self {
            Refusal::Failed => -1,
            Refusal::InvalidParam => -3,
            Refusal::Denied => -4,
        }
    }
}

// An answer's SBI error code: 0 where the request is done.
pub fn code(answer: Answer) -> i64
    ensures { result ≡ code_of answer }
{
    match answer {
        Ok(_) => 0,
        Err(refusal) => refusal.code(),
    }
}

// An answer's SBI value: 0 for a refusal.
pub fn value(answer: Answer) -> u64
    ensures { result ≡ value_of answer }
{
    answer.unwrap_or(0)
}

// The value, or the code of a refusal, in one number.
pub fn one_number(answer: Answer) -> i64
    requires { value_of answer < 2 ^ 63 }
    ensures { result ≡ result_of answer }
{
    match answer {
        Ok(value) => value as i64,
        Err(refusal) => refusal.code(),
    }
}
