// The steps of FID 2 and 3 on the page at an offset of L1 memory: as many as are allowed, or all of them.
ghost use Rattle.std.specs.Prelude.{◌≡◌, true, List, map, ℕ, ◌+◌, ◌-◌, ◌*◌, ◌^◌, ◌<◌, ◌≤◌, length, take};
ghost use Rattle.text.specs.Buffer.{Put};
ghost use Rattle.csr.specs.Csrs.{csr_count};
ghost use Rattle.layout.specs.Width.{bytes};
ghost use Rattle.layout.specs.Geometry.{page_size, entry_count};
ghost use Rattle.hart.specs.declared.record.Hart.{Hart};
ghost use Rattle.hart.specs.Dropped.{report_words};
ghost use Rattle.world.specs.Memory.{part_at};
ghost use Rattle.world.specs.State.{state_from};
ghost use Rattle.turns.specs.Marks.{Dirty, Pending};
ghost use Rattle.turns.specs.Steps.{steps};
ghost use Rattle.turns.specs.Reports.{reports};
ghost use Rattle.sync.specs.Turns.{dirty_at_turn, pending_at, marks_from};
ghost use Rattle.checks.specs.Checks.{good_entry};
ghost use Rattle.stops.specs.Sync.{csrs_asked, entries_asked};
ghost use Rattle.stops.specs.Inner.{Served};

use checks::fid;
use hart::record::Hart;
use layout::xlen::Xlen;
use pass::serve;
use std::ops::Range;
use sync::registers::Turned;
use sync::{entries, registers};
use text::Buffer;

// The registers that FID 2 serves, by their turns.
fn csrs_asked(x: Xlen, a: u64) -> Range<usize>
    ensures { (marks_from (dirty_at_turn x) result.start (result.end - result.start) ≡ map Dirty (csrs_asked x a)) × (result.start ≤ result.end) × (result.end ≤ csr_count) }
{
    if a == fid::all_ones(x) {
        return 0..csr::COUNT;
    }
    match csr::of_number(x, a) {
        Some(t) => t..t + 1,
        None => 0..0,
    }
}

// The entries that FID 3 serves.
fn entries_asked(x: Xlen, a: u64) -> Range<usize>
    requires { good_entry x a ≡ true }
    ensures { (marks_from pending_at result.start (result.end - result.start) ≡ map Pending (entries_asked x a)) × (result.start ≤ result.end) × (result.end ≤ entry_count (bytes x)) }
{
    if a == fid::all_ones(x) {
        return 0..Hart::entry_count(x);
    }
    let e = a as usize;
    e..e + 1
}

// The first `limit` steps of FID 2 on the page at offset `at`, or all if there are fewer; the table has no part in them. What the register
// writes say is put into `told`.
pub fn serve_registers(
    h: Hart,
    memory: &mut [u8],
    at: usize,
    a: u64,
    limit: u64,
    told: &mut Buffer<u64>,
) -> Turned
    requires { (at + page_size (bytes h.xlen) ≤ length memory.old) × (told.old.at + 2 * csr_count < 2 ^ 64) }
    ensures { ((t : List ℕ) → Served h.xlen (map Dirty (csrs_asked h.xlen a)) at limit h memory.old t
        result.hart memory.new t result.left)
        × ((t : List ℕ) → Put told.old (report_words (reports h.xlen
        (take limit (steps h.xlen (map Dirty (csrs_asked h.xlen a)) (state_from h (part_at (page_size (bytes h.xlen)) at memory.old) t)))
        (state_from h (part_at (page_size (bytes h.xlen)) at memory.old) t))) told.new) }
{
    let x = h.xlen;
    let asked = csrs_asked(x, a);
    let end = at + Hart::page_size(x);
    registers::turns(
        h,
        &mut memory[at..end],
        asked.start,
        asked.len(),
        limit,
        told,
    )
}

// The first `limit` steps of FID 3 on the page at offset `at`, or all if there are fewer; the record has no part in them. WHOLE says that
// `limit` is enough for any call: then all entries go in one pass over the table, and a single one by its turn.
pub fn serve_fences<const WHOLE: bool>(
    x: Xlen,
    memory: &mut [u8],
    table: &mut [u64],
    at: usize,
    a: u64,
    limit: u64,
) -> Option<u64>
    requires there { at + page_size (bytes x) ≤ length memory.old }
    requires good { good_entry x a ≡ true }
    requires enough { WHOLE ≡ true → (length table.old ≤ 1024) × (376 ≤ limit) }
    ensures { (h : Hart) → Served x (map Pending (entries_asked x a)) at limit h memory.old table.old
        h memory.new table.new result }
{
    let end = at + Hart::page_size(x);
    let page = &mut memory[at..end];
    if WHOLE && a == fid::all_ones(x) {
        let steps = serve::serve(x, page, table);
        return Some(limit - steps);
    }
    let asked = entries_asked(x, a);
    entries::turns(x, page, table, asked.start, asked.len(), limit)
}
