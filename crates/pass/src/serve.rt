// The turns of all entries: one pass over the table, and then Pending is cleared.
ghost use Rattle.std.specs.Prelude.{◌≡◌, ◌+◌, ◌*◌, ◌≤◌, length};
ghost use Rattle.layout.specs.Width.{bytes};
ghost use Rattle.layout.specs.Geometry.{entry_count};
ghost use Rattle.page.specs.Registers.{IsPage};
ghost use Rattle.page.specs.Entries.{NextPending};
ghost use Rattle.pass.specs.Inner.{OnlyPending, cleared_to, cleared_count};
ghost use Rattle.pass.specs.Pass.{used_slots, Swept, AllServed};

use crate::bounds::Test;
use crate::{gather, sweep};
use fence::table;
use hart::record::Hart;
use layout::xlen::Xlen;
use page::entries;

// Removes those of the first `slots` slots that a pending entry names, and says how many; `first` is the lowest pending entry. The page is only
// read.
pub fn sweep_slots(x: Xlen, page: &[u8], first: usize, table: &mut [u64], slots: usize) -> u64
    requires { (IsPage x page.now) × (NextPending x page.now 0 (entry_count (bytes x)) first) × (4 * slots ≤ length table.old) }
    ensures { (Swept x page.now table.old slots table.new)
        × (result + used_slots table.new ≡ used_slots table.old) }
{
    let mut room = [Test::default(); 120];
    let tests = gather::gather(x, page, first, &mut room);
    sweep::sweep(tests, table, slots)
}

// Clears Pending of all entries that have it, and says how many these were; `first` is the lowest of them.
fn clear(x: Xlen, page: &mut [u8], first: usize) -> u64
    requires { (IsPage x page.old) × (NextPending x page.old 0 (entry_count (bytes x)) first) }
    ensures { (page.new ≡ cleared_to x (entry_count (bytes x)) page.old) × (result ≡ cleared_count x (entry_count (bytes x)) page.old) }
{
    let mut cleared = 0;
    for e in first..Hart::entry_count(x) {
        if entries::is_pending(x, page, e) {
            entries::clear_pending(x, page, e);
            cleared += 1;
        }
    }
    cleared
}

// The turns of all entries where only entry e is pending: the slots that it names are removed, and its Pending is cleared.
fn serve_one(x: Xlen, page: &mut [u8], table: &mut [u64], e: usize) -> u64
    requires { (IsPage x page.old) × (OnlyPending x page.old e) × (length table.old ≤ 1024) }
    ensures { AllServed x page.old table.old page.new table.new result }
{
    let removed = table::remove_named(entries::fence_at(x, page, e), table);
    entries::clear_pending(x, page, e);
    removed + 1
}

// The turns of all entries, of which `first` is the lowest pending one: one pass over the table, and then Pending is cleared.
fn serve_some(x: Xlen, page: &mut [u8], table: &mut [u64], first: usize) -> u64
    requires { (IsPage x page.old) × (NextPending x page.old 0 (entry_count (bytes x)) first) × (length table.old ≤ 1024) }
    ensures { AllServed x page.old table.old page.new table.new result }
{
    let slots = table.len() / 4;
    let removed = sweep_slots(x, page, first, table, slots);
    let cleared = clear(x, page, first);
    removed + cleared
}

// The turns of all entries, and how many steps they have. Where only one entry is pending, its turn, which passes the table once too, is quicker.
pub fn serve(x: Xlen, page: &mut [u8], table: &mut [u64]) -> u64
    requires { (IsPage x page.old) × (length table.old ≤ 1024) }
    ensures { AllServed x page.old table.old page.new table.new result }
{
    let end = Hart::entry_count(x);
    let first = entries::next_pending(x, page, 0, end);
    if first == end {
        return 0;
    }
    if entries::next_pending(x, page, first + 1, end) == end {
        return serve_one(x, page, table, first);
    }
    serve_some(x, page, table, first)
}
