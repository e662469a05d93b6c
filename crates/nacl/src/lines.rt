// A line change from the platform.
ghost use Rattle.std.specs.Prelude.{◌≡◌, List, [], ◌∷◌, ℕ, ◌+◌, ◌≤◌, length};
ghost use Rattle.layout.specs.Width.{bytes};
ghost use Rattle.layout.specs.Geometry.{page_size};
ghost use Rattle.csr.specs.Csrs.{Hgeip, Hip, Vsip};
ghost use Rattle.world.specs.World.{lent};
ghost use Rattle.turns.specs.Clean.{store_clean_words};
ghost use Rattle.nacl.specs.Lines.{LineIs};
ghost use Rattle.nacl.specs.Inner.{OnPage};

use checks::answer::{Outcome, Refusal, Success};
use checks::judge;
use hart::record::Hart;
use hart::well_made;
use sync::clean;

// Stores the clean words of hgeip, hip and vsip in the page at offset `at` of memory. The table has no part in it: the contract holds whatever
// it is.
fn store_words(h: &Hart, memory: &mut [u8], at: usize)
    requires { at + page_size (bytes h.now.xlen) ≤ length memory.old }
    ensures { (table : List ℕ) → OnPage h.now.xlen (store_clean_words h.now.xlen (Hgeip ∷ Hip ∷ Vsip ∷ [])) at h.now memory.old table
        h.now memory.new table }
{
    let end = at + Hart::page_size(h.xlen);
    clean::store_words(h, &mut memory[at..end], csr::HGEIP);
}

// The lines are now `lines`, which are judged whole at either width: they are stored and, if the page is set and lies in memory, the clean words of hgeip, hip and vsip.
pub fn change(h: Hart, base: u64, memory: &mut [u8], table: &[u64], lines: u64) -> Outcome
    ensures { LineIs lines (lent h base memory.old table.now) result memory.new }
{
    if !judge::well_made(&h, table) {
        return Outcome::refused(h, Refusal::Failed);
    }
    if !well_made::lines_well_made(lines) {
        return Outcome::refused(h, Refusal::InvalidParam);
    }
    let hart = h.with_lines(lines);
    let x = hart.xlen;
    if !world::page_there(x, base, memory, hart.shmem) {
        return Outcome::done(hart, Success::Value(0), 0);
    }
    let at = world::page_offset(x, base, memory, hart.shmem);
    store_words(&hart, memory, at);
    Outcome::done(hart, Success::Value(0), 0)
}
