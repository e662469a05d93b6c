// A fence entry's words in the page, its Pending, and the entry decoded.
ghost use Rattle.std.specs.Prelude.{◌≡◌, ◌<◌, ◌≤◌};
ghost use Rattle.layout.specs.Width.{bytes};
ghost use Rattle.layout.specs.Geometry.{entry_count};
ghost use Rattle.page.specs.Registers.{IsPage};
ghost use Rattle.page.specs.Entries.{entry_word, is_pending, NextPending, fence_at, clear_entry};

use fence::entry;
use fence::entry::Fence;
use layout::xlen::Xlen;
use layout::{place, word};

// Word k of entry e.
pub fn entry_word(x: Xlen, page: &[u8], e: usize, k: usize) -> u64
    requires { (e < entry_count (bytes x)) × (IsPage x page.now) × (k < 4) }
    ensures { result ≡ entry_word x page.now e k }
{
    word::word_at(x, reader::entry(x, page, e), x.bytes() * k)
}

// Whether entry e is Pending.
pub fn is_pending(x: Xlen, page: &[u8], e: usize) -> bool
    requires { (e < entry_count (bytes x)) × (IsPage x page.now) }
    ensures { result ≡ is_pending x page.now e }
{
    entry::is_pending(x, entry_word(x, page, e, 0))
}

// Looks at the entries from e on for one that is Pending.
// Kept: the end stands for none: callers that go from one pending entry to the next end their loops by it.
fn scan(x: Xlen, page: &[u8], e: usize, end: usize) -> usize
    requires { (e ≤ end) × (end ≤ entry_count (bytes x)) × (IsPage x page.now) }
    ensures { NextPending x page.now e end result }
{
    for i in e..end {
        if is_pending(x, page, i) {
            return i;
        }
    }
    end
}

// The first pending entry from e on, or `end` if there is none before it. Each width has its own loop, which is told how many entries
// there are.
pub fn next_pending(x: Xlen, page: &[u8], e: usize, end: usize) -> usize
    requires { (e ≤ end) × (end ≤ entry_count (bytes x)) × (IsPage x page.now) }
    ensures { NextPending x page.now e end result }
{
    match x {
        Xlen::X32 => scan(Xlen::X32, page, e, end.min(120)),
        Xlen::X64 => scan(Xlen::X64, page, e, end.min(60)),
    }
}

// Entry e, decoded.
pub fn fence_at(x: Xlen, page: &[u8], e: usize) -> Fence
    requires { (e < entry_count (bytes x)) × (IsPage x page.now) }
    ensures { result ≡ fence_at x page.now e }
{
    let config = entry_word(x, page, e, 0);
    let number = entry_word(x, page, e, 1);
    let word2 = entry_word(x, page, e, 2);
    let count = entry_word(x, page, e, 3);
    entry::decode(x, config, number, word2, count)
}

// Clears Pending of entry e.
pub fn clear_pending(x: Xlen, page: &mut [u8], e: usize)
    requires { (e < entry_count (bytes x)) × (IsPage x page.old) }
    ensures { page.new ≡ clear_entry x e page.old }
{
    let at = place::entry_at(x, e);
    let config = word::word_at(x, page, at);
    word::put_word(x, page, at, entry::clear_pending(x, config));
}
