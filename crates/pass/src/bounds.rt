// A fence entry as spans of plain numbers that a slot is compared with.
ghost use Rattle.std.specs.Prelude.{◌≡◌, true, length, get_or};
ghost use Rattle.pass.specs.Inner.{within, passes_by, SpanOf, WhoOf, TestOf, target_fits};

use fence::entry::{Fence, Pages, Range, Target};

// Numbers from `low` to `last`; none if `last` is below `low`.
#[derive(Clone, Copy, Debug, Default, PartialEq, Eq)]
pub struct Span {
    pub low: u64,
    pub last: u64,
}

// Which page of a slot: the guest virtual one or the guest physical one, by the word of the slot that has it.
#[derive(Clone, Copy, Debug, Default, PartialEq, Eq)]
pub enum Page {
    #[default]
    Virtual = 1,
    Physical = 2,
}

// What an entry asks of a used slot: VMID, ASID and the global bit as one number of the span `who`, and the page of the span `pages`.
#[derive(Clone, Copy, Debug, Default, PartialEq, Eq)]
pub struct Test {
    pub who: Span,
    pub page: Page,
    pub pages: Span,
}

impl Span {
    // No number.
    pub const NONE: Span = Span {
        low: u64::MAX,
        last: 0,
    };

    // Every number.
    pub const ALL: Span = Span {
        low: 0,
        last: u64::MAX,
    };

    // Whether the span has number v.
    pub fn contains(&self, v: u64) -> bool
        ensures { result ≡ within self.now.low self.now.last v }
    {
        (self.low..=self.last).contains(&v)
    }
}

impl Test {
    // The test of an entry.
    pub fn of(f: Fence) -> Test
        requires { target_fits f.target ≡ true }
        ensures { TestOf f result }
    {
        let (page, pages) = match f.pages {
            Pages::All => (Page::Virtual, Span::ALL),
            Pages::Physical(range) => (Page::Physical, span_of(range)),
            Pages::Virtual(range) => (Page::Virtual, span_of(range)),
        };
        Test {
            who: who_of(f.target),
            page,
            pages,
        }
    }

    // Whether a slot that belongs to `who` passes.
    pub fn passes(&self, who: u64, slot: &[u64]) -> bool
        requires { length slot.now ≡ 4 }
        ensures { result ≡ passes_by self.now who (get_or slot.now 1 0) (get_or slot.now 2 0) }
    {
        self.pages.contains(slot[self.page as usize]) && self.who.contains(who)
    }
}

// The pages of a range.
fn span_of(r: Range) -> Span
    ensures { SpanOf r result }
{
    if r.count == 0 {
        return Span::NONE;
    }
    if r.order >= 64 {
        return if r.number == 0 { Span::ALL } else { Span::NONE };
    }
    let top = u64::MAX >> r.order;
    if r.number > top {
        return Span::NONE;
    }
    let low = r.number << r.order;
    let last = if r.count > top - r.number {
        u64::MAX
    } else {
        ((r.number + r.count) << r.order) - 1
    };
    Span { low, last }
}

// The numbers, as in `Test`, of the slots that are aimed at.
fn who_of(t: Target) -> Span
    requires { target_fits t ≡ true }
    ensures { WhoOf t result }
{
    match t {
        Target::AnyVmid => Span {
            low: 0,
            last: 0x7FFF_FFFF,
        },
        Target::OneVmid(vmid) => Span {
            low: vmid * 0x2_0000,
            last: vmid * 0x2_0000 + 0x1_FFFF,
        },
        Target::VmidAsid(vmid, asid) => {
            let one = vmid * 0x2_0000 + asid * 2;
            Span {
                low: one,
                last: one,
            }
        }
    }
}
