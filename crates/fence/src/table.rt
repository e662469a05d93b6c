// The translation table, four words a slot: removal of slots.
ghost use Rattle.std.specs.Prelude.{◌≡◌, ◌+◌, ◌*◌, ◌≤◌, min, length, take};
ghost use Rattle.fence.specs.Table.{names_slot, remove_slot, remove_slots, remove_named, named};

use crate::entry::Fence;

// Whether the entry names slot i.
pub fn names_slot(f: Fence, table: &[u64], i: usize) -> bool
    requires { 4 * i + 4 ≤ length table.now }
    ensures { result ≡ names_slot f table.now i }
{
    let at = 4 * i;
    f.names(table[at], table[at + 1], table[at + 2])
}

// Removes slot i.
pub fn remove_slot(table: &mut [u64], i: usize)
    requires { 4 * i + 4 ≤ length table.old }
    ensures { table.new ≡ remove_slot table.old i }
{
    let at = 4 * i;
    table[at..at + 4].fill(0);
}

// Removes the first slots that the entry names, ascending, `limit` of them at most, and says how many.
// Kept: by the slots' numbers, as in the two functions above; over chunks_exact_mut(4) both would be written out here.
pub fn remove_first(f: Fence, table: &mut [u64], limit: u64) -> u64
    ensures table_after { table.new ≡ remove_slots table.old (take limit (named f table.old)) }
    ensures value { result ≡ min limit (length (named f table.old)) }
{
    let mut removed = 0;
    for i in 0..table.len() / 4 {
        if names_slot(f, table, i) {
            if removed == limit {
                return removed;
            }
            remove_slot(table, i);
            removed += 1;
        }
    }
    removed
}

// Removes every slot that the entry names, ascending, and says how many.
pub fn remove_named(f: Fence, table: &mut [u64]) -> u64
    ensures { (table.new ≡ remove_named f table.old) × (result ≡ length (named f table.old)) }
{
    remove_first(f, table, u64::MAX)
}
