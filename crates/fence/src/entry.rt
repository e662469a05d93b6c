// A fence entry's four words, decoded.
ghost use Rattle.std.specs.Prelude.{◌≡◌};
ghost use Rattle.fence.specs.Entry.{pending, clear_pending, type_of, order_of, vmid_of, asid_of, readable, target_of, pages_of, decoded, reserved};

use crate::bits::field;
use layout::xlen::Xlen;

// Whom an entry aims at.
#[derive(Clone, Copy, Debug, PartialEq, Eq)]
pub enum Target {
    AnyVmid,
    OneVmid(u64),
    VmidAsid(u64, u64),
}

// A range: page p is in it if Page_Number <= p div 2^Order < Page_Number + Page_Count.
#[derive(Clone, Copy, Debug, PartialEq, Eq)]
pub struct Range {
    pub order: u64,
    pub number: u64,
    pub count: u64,
}

// Which pages an entry reaches: all, those in a range of guest physical pages, or those in a range of guest virtual pages.
#[derive(Clone, Copy, Debug, PartialEq, Eq)]
pub enum Pages {
    All,
    Physical(Range),
    Virtual(Range),
}

// A decoded entry.
// Kept: a rule of the project (docs/DECISIONS.md), a decoded entry is a struct with two enums.
#[derive(Clone, Copy, Debug, PartialEq, Eq)]
pub struct Fence {
    pub target: Target,
    pub pages: Pages,
}

// Whether Config has Pending set.
pub fn is_pending(x: Xlen, config: u64) -> bool
    ensures { result ≡ pending x config }
{
    match x {
        Xlen::X32 => field(config, 31, 1) == 1,
        Xlen::X64 => field(config, 63, 1) == 1,
    }
}

// Config with Pending cleared.
pub fn clear_pending(x: Xlen, config: u64) -> u64
    ensures { result ≡ clear_pending x config }
{
    match x {
        Xlen::X32 => config % 0x8000_0000,
        Xlen::X64 => config % 0x8000_0000_0000_0000,
    }
}

// Config's Type.
pub fn kind(x: Xlen, config: u64) -> u64
    ensures { result ≡ type_of x config }
{
    match x {
        Xlen::X32 => field(config, 24, 4),
        Xlen::X64 => field(config, 56, 4),
    }
}

// Config's Order.
pub fn order(x: Xlen, config: u64) -> u64
    ensures { result ≡ order_of x config }
{
    match x {
        Xlen::X32 => field(config, 16, 7),
        Xlen::X64 => field(config, 48, 7),
    }
}

// Config's VMID.
pub fn vmid(x: Xlen, config: u64) -> u64
    ensures { result ≡ vmid_of x config }
{
    match x {
        Xlen::X32 => field(config, 9, 7),
        Xlen::X64 => field(config, 16, 14),
    }
}

// Config's ASID.
pub fn asid(x: Xlen, config: u64) -> u64
    ensures { result ≡ asid_of x config }
{
    match x {
        Xlen::X32 => field(config, 0, 9),
        Xlen::X64 => field(config, 0, 16),
    }
}

// Config's reserved bits.
fn reserved_bits(x: Xlen) -> u64
    ensures { result ≡ reserved x }
{
    match x {
        Xlen::X32 => 0x7080_0000,
        Xlen::X64 => 0x7080_FFFF_C000_0000,
    }
}

// Whether an entry can be read: no reserved bit, word 2 zero, a Type up to 7.
pub fn is_readable(x: Xlen, config: u64, word2: u64) -> bool
    ensures { result ≡ readable x config word2 }
{
    (config & reserved_bits(x) == 0) & (word2 == 0) & (kind(x, config) <= 7)
}

// Whom the entry with this Config aims at.
fn target_of(x: Xlen, config: u64) -> Target
    ensures { result ≡ target_of x config }
{
    match kind(x, config) {
        0..2 => Target::AnyVmid,
        2..6 => Target::OneVmid(vmid(x, config)),
        _ => Target::VmidAsid(vmid(x, config), asid(x, config)),
    }
}

// Which pages the entry with these words tests.
fn pages_of(x: Xlen, config: u64, number: u64, count: u64) -> Pages
    ensures { result ≡ pages_of x config number count }
{
    let kind = kind(x, config);
    let range = Range {
        order: order(x, config),
        number,
        count,
    };
    if kind % 2 == 1 {
        Pages::All
    } else if kind < 4 {
        Pages::Physical(range)
    } else {
        Pages::Virtual(range)
    }
}

// The entry with the words Config, Page_Number, word 2 and Page_Count, whatever they hold.
pub fn decode(x: Xlen, config: u64, number: u64, word2: u64, count: u64) -> Fence
    ensures { result ≡ decoded x config number word2 count }
{
    if is_readable(x, config, word2) {
        Fence {
            target: target_of(x, config),
            pages: pages_of(x, config, number, count),
        }
    } else {
        Fence {
            target: Target::AnyVmid,
            pages: Pages::All,
        }
    }
}
