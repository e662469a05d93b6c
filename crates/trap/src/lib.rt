// What a trap back from the guest does to the page, once the record has changed.
#![tactic(auto)]

ghost use Rattle.std.specs.Prelude.{◌≡◌, List, ℕ, ◌+◌, ◌^◌, ◌<◌};
ghost use Rattle.page.specs.Registers.{IsPage};
ghost use Rattle.world.specs.State.{state_from};
ghost use Rattle.text.specs.Buffer.{Put};
ghost use Rattle.hart.specs.Dropped.{report_words};
ghost use Rattle.sret.specs.Sret.{swap_reports};
ghost use Rattle.trap.specs.Trap.{trap_stored};

use hart::record::Hart;
use sret::swap;
use sync::clean;
use text::Buffer;

// The swap, if feature 3 and flag bit 0, and then the clean words of hstatus, htval, htinst, hip and vsip. The table has no part in it: the
// contract holds whatever it is. What the swap says is put into `told`.
pub fn store(h: Hart, page: &mut [u8], told: &mut Buffer<u64>) -> Hart
    requires { (IsPage h.xlen page.old) × (told.old.at + 2 < 2 ^ 64) }
    ensures { ((table : List ℕ) → state_from result page.new table ≡ trap_stored h.xlen (state_from h page.old table))
        × ((table : List ℕ) → Put told.old (report_words (swap_reports h.xlen (state_from h page.old table))) told.new) }
{
    let swapped = swap::autoswap(h, page, told);
    clean::store_trap_words(&swapped, page);
    swapped
}
