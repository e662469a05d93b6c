// The SRET context.
ghost use Rattle.std.specs.Prelude.{◌≡◌, ◌∷◌, length, drop};
ghost use Rattle.page.specs.Registers.{IsPage};
ghost use Rattle.hypervisor.specs.Requests.{Context, stored_all, context_stores, RequestIs};

use crate::answer::{Answer, Refusal};
use hart::record::Hart;
use hart::well_made;
use layout::xlen::Xlen;
use layout::{place, word};

// How many words there are.
const WORDS: usize = 32;

// Stores zero in word 0 of the context and X1 to X31 in the words after it.
fn store(x: Xlen, page: &mut [u8], words: &[u64])
    requires { (IsPage x page.old) × (length words.now ≡ 32) }
    ensures { page.new ≡ stored_all x (context_stores x 0 (0 ∷ drop 1 words.now)) page.old }
{
    word::put_word(x, page, place::context_at(x, 0), 0);
    for i in 1..WORDS {
        word::put_word(x, page, place::context_at(x, i), words[i]);
    }
}

// Fills the context from X0 to X31, of which X0 is not looked at: word 0 is zero. X1 to X31 have to fit a word.
pub fn fill(x: Xlen, page: &mut [u8], words: &[u64]) -> Answer
    ensures { RequestIs x (Context words.now) page.old result page.new }
{
    if page.len() != Hart::page_size(x) {
        return Err(Refusal::Failed);
    }
    if words.len() != WORDS || !well_made::each_fits(x, &words[1..]) {
        return Err(Refusal::InvalidParam);
    }
    store(x, page, words);
    Ok(0)
}
