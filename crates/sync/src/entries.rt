// Fence entries' turns on a page and a table. The record has no part in them: the contracts hold whatever it is. A run is allowed some number
// of steps: None says that a step was left, Some how many more were allowed.
ghost use Rattle.std.specs.Prelude.{◌+◌, ◌<◌, ◌≤◌};
ghost use Rattle.layout.specs.Width.{bytes};
ghost use Rattle.layout.specs.Geometry.{entry_count};
ghost use Rattle.hart.specs.declared.record.Hart.{Hart};
ghost use Rattle.page.specs.Registers.{IsPage};
ghost use Rattle.world.specs.State.{state_from};
ghost use Rattle.turns.specs.Steps.{entry_steps, steps, Made};
ghost use Rattle.sync.specs.Turns.{pending_at, marks_from};
ghost use Rattle.sync.specs.Progress.{left_of, stopped_in};

use fence::table;
use layout::xlen::Xlen;
use page::entries;

// The turn of entry e: if Pending, the slots that it names are removed, ascending, then Pending is cleared.
fn turn(x: Xlen, page: &mut [u8], table: &mut [u64], e: usize, limit: u64) -> Option<u64>
    requires { (e < entry_count (bytes x)) × (IsPage x page.old) }
    ensures { (h : Hart) → Made x (entry_steps x e (state_from h page.old table.old))
        (state_from h page.old table.old) limit
        (state_from h page.new table.new) (left_of result) (stopped_in result) }
{
    if !entries::is_pending(x, page, e) {
        return Some(limit);
    }
    let removed = table::remove_first(entries::fence_at(x, page, e), table, limit);
    let left = (limit - removed).checked_sub(1)?;
    entries::clear_pending(x, page, e);
    Some(left)
}

// The turns of `count` entries from entry `first` on, ascending: those that are not Pending have no step.
pub fn turns(
    x: Xlen,
    page: &mut [u8],
    table: &mut [u64],
    first: usize,
    count: usize,
    limit: u64,
) -> Option<u64>
    requires { (first + count ≤ entry_count (bytes x)) × (IsPage x page.old) }
    ensures { (h : Hart) → Made x (steps x (marks_from pending_at first count) (state_from h page.old table.old))
        (state_from h page.old table.old) limit
        (state_from h page.new table.new) (left_of result) (stopped_in result) }
{
    let end = first + count;
    let mut left = limit;
    // Kept: from pending entry to pending entry: where none is pending, a `for` over all of them takes 504 instructions, and this 191.
    let mut e = entries::next_pending(x, page, first, end);
    while e < end {
        left = turn(x, page, table, e, left)?;
        e = entries::next_pending(x, page, e + 1, end);
    }
    Some(left)
}
