// The tests of the pending entries.
ghost use Rattle.layout.specs.Width.{bytes};
ghost use Rattle.layout.specs.Geometry.{entry_count};
ghost use Rattle.page.specs.Registers.{IsPage};
ghost use Rattle.page.specs.Entries.{NextPending};
ghost use Rattle.pass.specs.Inner.{Gathered};

use crate::bounds::Test;
use hart::record::Hart;
use layout::xlen::Xlen;
use page::entries;

// The tests of all pending entries, stored in `room`; `first` is the lowest of these entries, and 120 is the most that there can be.
pub fn gather<'a>(x: Xlen, page: &[u8], first: usize, room: &'a mut [Test; 120]) -> &'a [Test]
    requires { (IsPage x page.now) × (NextPending x page.now 0 (entry_count (bytes x)) first) }
    ensures { Gathered x page.now (entry_count (bytes x)) result.now }
{
    let mut n = 0;
    for e in first..Hart::entry_count(x) {
        if entries::is_pending(x, page, e) {
            room[n] = Test::of(entries::fence_at(x, page, e));
            n += 1;
        }
    }
    &room[..n]
}
