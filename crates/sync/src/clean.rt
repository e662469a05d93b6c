// The clean words that SRET, a line change and a trap store. Of the record only the features, the stored registers and the lines have a part in
// it, and the table has none: the contracts hold for every record with these three, and whatever the table is.
ghost use Rattle.std.specs.Prelude.{◌≡◌, List, [], ◌∷◌, ℕ, ◌<◌, ◌≤◌, length};
ghost use Rattle.csr.specs.Csrs.{Csr, at_turn, Hip, Vsip};
ghost use Rattle.hart.specs.declared.record.Hart.{Hart};
ghost use Rattle.page.specs.Registers.{IsPage, index};
ghost use Rattle.world.specs.State.{state_from};
ghost use Rattle.turns.specs.Clean.{unclean, trap_words, store_clean_words};

use crate::registers;
use hart::features;
use hart::record::Hart;
use layout::dirty;

// Whether the word of the register whose index is i is not clean. Without feature 0 every word is clean.
fn is_unclean(h: &Hart, page: &[u8], i: usize) -> bool
    requires { (i < 1024) × (0x1000 ≤ length page.now) }
    ensures { (c : Csr) → i ≡ index c → result ≡ unclean h.now.features page.now c }
{
    features::has(h.features, 0) & dirty::is_dirty(page, i)
}

// Stores the reading of the register at turn t in its word, if that is clean.
fn store_clean(h: &Hart, page: &mut [u8], t: usize)
    requires { IsPage h.now.xlen page.old }
    ensures { (table : List ℕ) → state_from h.now page.new table
        ≡ store_clean_words h.now.xlen (at_turn t ∷ []) (state_from h.now page.old table) }
{
    let i = csr::index(t);
    if !is_unclean(h, page, i) {
        registers::store(h, page, t, i);
    }
}

// Stores the clean words of hstatus (after SRET), hgeip (after a line change) or htinst (after a trap), then hip, vsip: the register at turn
// `first` and these two.
pub fn store_words(h: &Hart, page: &mut [u8], first: usize)
    requires { IsPage h.now.xlen page.old }
    ensures { (k : Hart) (table : List ℕ) → k.features ≡ h.now.features → k.csrs ≡ h.now.csrs → k.lines ≡ h.now.lines
        → state_from k page.new table
        ≡ store_clean_words h.now.xlen (at_turn first ∷ Hip ∷ Vsip ∷ []) (state_from k page.old table) }
{
    store_clean(h, page, first);
    store_clean(h, page, csr::HIP);
    store_clean(h, page, csr::VSIP);
}

// Stores the clean words of hstatus, htval, htinst, hip and vsip.
pub fn store_trap_words(h: &Hart, page: &mut [u8])
    requires { IsPage h.now.xlen page.old }
    ensures { (k : Hart) (table : List ℕ) → k.features ≡ h.now.features → k.csrs ≡ h.now.csrs → k.lines ≡ h.now.lines
        → state_from k page.new table
        ≡ store_clean_words h.now.xlen trap_words (state_from k page.old table) }
{
    store_clean(h, page, csr::HSTATUS);
    store_clean(h, page, csr::HTVAL);
    store_words(h, page, csr::HTINST);
}
