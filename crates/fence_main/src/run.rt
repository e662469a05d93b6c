// An entry on a small translation table, and what becomes of the slots, written.
use fence::entry::Fence;
use fence::table;
use std::{fmt, io};

// Slot word 0: used, and used and global.
pub const USED: u64 = 0x8000_0000_0000_0000;

const GLOBAL: u64 = 0xC000_0000_0000_0000;

// Eight slots: VMID and ASID, guest virtual page, guest physical page, host page. Slot 6 is not used.
const SLOTS: [[u64; 4]; 8] = [
    [USED + 0x5_0007, 100, 300, 77],
    [GLOBAL + 0x5_0007, 100, 300, 77],
    [USED + 0x5_0008, 100, 300, 77],
    [USED + 0x6_0007, 100, 300, 77],
    [USED + 0x5_0007, 300, 100, 77],
    [GLOBAL + 0x6_0009, 300, 100, 77],
    [0x5_0007, 100, 100, 77],
    [USED + 0x5_0007, 300, 300, 77],
];

// What becomes of a slot.
#[derive(Clone, Copy)]
enum Fate {
    Kept,
    Removed,
    Torn,
}

impl fmt::Display for Fate {
    fn fmt<W: fmt::Write>(&self, f: &mut fmt::Formatter<W>) -> fmt::Result {
        f.write_str(match self {
            Fate::Kept => "keep",
            Fate::Removed => "remove",
            Fate::Torn => "torn",
        })
    }
}

impl Fate {
    // A slot is removed where its words are zero, and kept where they are as before.
    fn of(before: [u64; 4], after: [u64; 4]) -> Fate {
        if after == [0; 4] {
            Fate::Removed
        } else if after == before {
            Fate::Kept
        } else {
            Fate::Torn
        }
    }
}

// `CASE PAGE keep` or `CASE PAGE remove`: the entry on a table of one used slot that holds the page.
pub fn page(rt: &impl Print, case: &str, f: Fence, page: u64) -> io::Result<()> {
    let before = [USED, page, page, 77];
    let mut after = before;
    table::remove_named(f, &mut after);
    println!(rt; "{case} {page} {}", Fate::of(before, after))
}

// `CASE NUMBER removes COUNT: SLOT ..`: at most `limit` slots that the entry names, of the eight.
pub fn eight(rt: &impl Print, case: &str, number: u64, f: Fence, limit: u64) -> io::Result<()> {
    let mut table = SLOTS;
    let removed = table::remove_first(f, table.as_flattened_mut(), limit);
    print!(rt; "{case} {number} removes {removed}:")?;
    for (i, slot) in table.iter().enumerate() {
        match Fate::of(SLOTS[i], *slot) {
            Fate::Kept => {}
            Fate::Removed => print!(rt; " {i}")?,
            Fate::Torn => print!(rt; " torn")?,
        }
    }
    println!(rt; "")
}
