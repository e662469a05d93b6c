// The beginning of a replay.
ghost use Rattle.std.specs.Prelude.{◌≡◌, length, replicate};
ghost use Rattle.replay.specs.Code.{begun};

use crate::Replay;
use hart::record::Hart;
use layout::xlen::Xlen;

// A fresh hart with all features, zeroes in memory and in the table, and no record yet.
pub fn start(memory: &mut [u8], table: &mut [u64]) -> Replay
    ensures { (result ≡ begun) × (memory.new ≡ replicate (length memory.old) 0)
        × (table.new ≡ replicate (length table.old) 0) }
{
    memory.fill(0);
    table.fill(0);
    Replay {
        hart: Hart::fresh(Xlen::X64, 15),
        number: 1,
        have: 0,
        ended: false,
    }
}
