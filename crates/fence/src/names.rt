// Which slots an entry names.
ghost use Rattle.std.specs.Prelude.{◌≡◌, ◌/◌, ◌^◌};
ghost use Rattle.fence.specs.Names.{in_range, aimed_at, covers, names};

use crate::bits::field;
use crate::entry::{Fence, Pages, Range, Target};

// The bits of a page number.
const BITS: u64 = 64;

// p div 2^order; 0 from order 64 on.
fn shifted(p: u64, order: u64) -> u64
    ensures { result ≡ p / 2 ^ order }
{
    // Kept: the library's checked_shr takes a u32, and the order may be any u64.
    if order < BITS { p >> order } else { 0 }
}

// Whether page p is in range.
fn in_range(r: Range, p: u64) -> bool
    ensures { result ≡ in_range r p }
{
    let q = shifted(p, r.order);
    q >= r.number && q - r.number < r.count
}

// Whether a slot with this word 0 is aimed at.
fn aimed_at(t: Target, word0: u64) -> bool
    ensures { result ≡ aimed_at t word0 }
{
    match t {
        Target::AnyVmid => true,
        Target::OneVmid(vmid) => field(word0, 16, 14) == vmid,
        Target::VmidAsid(vmid, asid) => {
            (field(word0, 16, 14) == vmid)
                & (field(word0, 0, 16) == asid)
                & (field(word0, 62, 1) != 1)
        }
    }
}

// Whether a slot with these pages is among those tested.
fn covers_page(p: Pages, word1: u64, word2: u64) -> bool
    ensures { result ≡ covers p word1 word2 }
{
    match p {
        Pages::All => true,
        Pages::Physical(r) => in_range(r, word2),
        Pages::Virtual(r) => in_range(r, word1),
    }
}

impl Fence {
    // Whether the entry names the slot with these words.
    pub fn names(self, word0: u64, word1: u64, word2: u64) -> bool
        ensures { result ≡ names self word0 word1 word2 }
    {
        field(word0, 63, 1) == 1
            && aimed_at(self.target, word0)
            && covers_page(self.pages, word1, word2)
    }
}
