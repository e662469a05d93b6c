// The answer as a code and a block of five words: value, resumed, steps, finished, and how many register writes dropped bits.
ghost use Rattle.std.specs.Prelude.{◌≡◌, ◌/◌, false};
ghost use Rattle.checks.specs.declared.answer.Refusal.TheVariants.{Failed};
ghost use Rattle.checks.specs.Codes.{code_of};
ghost use Rattle.abi.specs.Answers.{answered};

use checks::answer::{self, Answer, Refusal};

// Fills the answer's block, unless it has another length, and gives the code. Each report is two of the words told.
pub fn tell(words: &mut [u64], said: Answer, steps: u64, finished: bool, told: usize) -> i64
    ensures { (result ≡ code_of said) × (words.new ≡ answered said steps finished (told / 2) words.old) }
{
    if words.len() == 5 {
        words.copy_from_slice(&[
            answer::value(said),
            u64::from(answer::is_resumed(said)),
            steps,
            u64::from(finished),
            (told / 2) as u64,
        ]);
    }
    answer::code(said)
}

// The same for a record's block that is not well formed, which is refused at check 1.
pub fn refuse(words: &mut [u64]) -> i64
    ensures { (result ≡ code_of (Err Failed)) × (words.new ≡ answered (Err Failed) 0 false 0 words.old) }
{
    tell(words, Err(Refusal::Failed), 0, false, 0)
}
