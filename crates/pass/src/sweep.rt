// The pass over the table: each slot against the tests of all pending entries.
ghost use Rattle.std.specs.Prelude.{◌≡◌, ◌&&◌, ℕ, ◌+◌, ◌*◌, ◌≤◌, ltb, length, get_or};
ghost use Rattle.fence.specs.Table.{Cleared};
ghost use Rattle.pass.specs.Inner.{who, passes_any_by, named_by, Around};
ghost use Rattle.pass.specs.Pass.{used_slots};

use crate::bounds::{Span, Test};
use fence::table;

// VMID, ASID and the global bit of a slot's word 0 as one number.
fn who_in(word0: u64) -> u64
    ensures { result ≡ who word0 }
{
    word0 / 0x1_0000 % 0x4000 * 0x2_0000 + word0 % 0x1_0000 * 2 + word0 / 0x4000_0000_0000_0000 % 2
}

// A span around what the tests ask of VMID, ASID and the global bit: a slot outside of it passes none of them.
fn span_around(tests: &[Test]) -> Span
    ensures { Around tests.now result }
{
    let Span { mut low, mut last } = Span::NONE;
    for t in tests {
        low = low.min(t.who.low);
        last = last.max(t.who.last);
    }
    Span { low, last }
}

// Whether a slot that belongs to `who` passes one of the tests.
fn passes_any(tests: &[Test], who: u64, slot: &[u64]) -> bool
    requires { length slot.now ≡ 4 }
    ensures { result ≡ passes_any_by tests.now who (get_or slot.now 1 0) (get_or slot.now 2 0) }
{
    // Kept: `tests.iter().any(..)` takes one instruction more for each test, 11 % of the pass that names nothing.
    for t in tests {
        if t.passes(who, slot) {
            return true;
        }
    }
    false
}

// Whether slot i is used and passes one of the tests, which ask for nobody outside of the span.
fn is_named(tests: &[Test], span: Span, table: &[u64], i: usize) -> bool
    requires { (Around tests.now span) × (4 * i + 4 ≤ length table.now) }
    ensures { result ≡ named_by tests.now table.now i }
{
    let at = 4 * i;
    let slot = &table[at..at + 4];
    if slot[0] / 0x8000_0000_0000_0000 % 2 != 1 {
        return false;
    }
    let who = who_in(slot[0]);
    span.contains(who) && passes_any(tests, who, slot)
}

// Removes those of the first `slots` slots that are used and pass one of the tests, and says how many.
pub fn sweep(tests: &[Test], table: &mut [u64], slots: usize) -> u64
    requires { 4 * slots ≤ length table.old }
    ensures { (Cleared (λ (i : ℕ). ltb i slots && named_by tests.now table.old i) table.old table.new)
        × (result + used_slots table.new ≡ used_slots table.old) }
{
    let span = span_around(tests);
    let mut removed = 0;
    for i in 0..slots {
        if is_named(tests, span, table, i) {
            table::remove_slot(table, i);
            removed += 1;
        }
    }
    removed
}
