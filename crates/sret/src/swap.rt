// The swap of hstatus with its word, which SRET and a trap make.
ghost use Rattle.std.specs.Prelude.{◌≡◌, List, ℕ, ◌+◌, ◌^◌, ◌<◌};
ghost use Rattle.text.specs.Buffer.{Put};
ghost use Rattle.hart.specs.Dropped.{report_words};
ghost use Rattle.page.specs.Registers.{IsPage};
ghost use Rattle.world.specs.State.{state_from};
ghost use Rattle.sret.specs.Sret.{swaps, autoswapped, swap_reports};

use hart::features;
use hart::record::Hart;
use layout::{place, word};
use sync::reports;
use text::Buffer;

// Feature 3 and flag bit 0.
fn is_swapped(h: &Hart, page: &[u8]) -> bool
    requires { IsPage h.now.xlen page.now }
    ensures { result ≡ swaps h.now.xlen h.now.features page.now }
{
    features::has(h.features, 3) & (word::word_at(h.xlen, page, place::FLAGS_AT) % 2 == 1)
}

// The swap, if feature 3 and flag bit 0: hstatus is written from the swap word, which gets the old reading. What the write says is put into
// `told`.
// Inlined, so that the record goes in and out without a copy.
#[inline(always)]
pub fn autoswap(h: Hart, page: &mut [u8], told: &mut Buffer<u64>) -> Hart
    requires { (IsPage h.xlen page.old) × (told.old.at + 2 < 2 ^ 64) }
    ensures { ((table : List ℕ) → state_from result page.new table ≡ autoswapped h.xlen (state_from h page.old table))
        × ((table : List ℕ) → Put told.old (report_words (swap_reports h.xlen (state_from h page.old table))) told.new) }
{
    if !is_swapped(&h, page) {
        return h;
    }
    let old = h.read(csr::HSTATUS);
    let at = place::swap_at(h.xlen);
    let new = word::word_at(h.xlen, page, at);
    word::put_word(h.xlen, page, at, old);
    let hart = h.write_hstatus(new);
    let bits = new ^ hart.read(csr::HSTATUS);
    reports::put(told, csr::number(csr::HSTATUS), bits);
    hart
}
