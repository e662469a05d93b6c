// One record of a recording, applied to the world of a replay: the hart, memory and the table.
#![tactic(auto)]

use checks::answer::Answer;
use hart::record::Hart;

pub mod kinds;
pub mod stores;
pub mod used;

// The physical address of memory's first byte.
pub const MEMORY_BASE: u64 = 0x8000_0000;

// What a record gives: the answer, the hart that it leaves, its steps, how many slots fences removed, and how many words say what its register
// writes dropped.
#[derive(Clone, Copy)]
pub struct Applied {
    pub answer: Answer,
    pub hart: Hart,
    pub steps: u64,
    pub removed: u64,
    pub told: usize,
}
