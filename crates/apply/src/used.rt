// The used slots of a table.
ghost use Rattle.std.specs.Prelude.{◌≡◌, ◌≤◌};
ghost use Rattle.fence.specs.Slots.{slot_count};
ghost use Rattle.apply.specs.Used.{used_count};

// How many slots are used.
#[tactic(auto, using(crate::proofs::UsedLaws::used_more), unfolding(crate::specs::Used::used_among))]
pub fn used_count(table: &[u64]) -> u64
    ensures { (result ≡ used_count table.now) × (result ≤ slot_count table.now) }
{
    let mut count = 0u64;
    for i in 0..table.len() / 4 {
        count += table[4 * i] / 0x8000_0000_0000_0000;
    }
    count
}
