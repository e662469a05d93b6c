// The record as a block of words.
#![tactic(auto)]

ghost use Rattle.std.specs.Prelude.{◌≡◌, [], ◌∷◌, ◌++◌, length, take, drop, IsTrue};
ghost use Rattle.block.specs.Block.{first_count, general_at, general_count, block_length, high_word};
ghost use Rattle.block.specs.Block.{middle, last, well_formed, record_of, block_of};

use hart::record::{Hart, Mode};
use layout::xlen::Xlen;

// The places of the words after the first stored registers: the lines, whether a page is set, its address, V, the mode, pc, sepc, SIE, SPIE, SPP and
// the features.
const LINES: usize = 19;

const PAGE_SET: usize = LINES + 1;

const PAGE_AT: usize = LINES + 2;

const VIRT: usize = LINES + 3;

const MODE: usize = LINES + 4;

const PC: usize = LINES + 5;

const SEPC: usize = LINES + 6;

const SIE: usize = LINES + 7;

const SPIE: usize = LINES + 8;

const SPP: usize = LINES + 9;

const FEATURES: usize = LINES + 10;

// Where the general registers begin.
const GENERAL: usize = LINES + 11;

// The width, htimedeltah, stvec, scause, stval and the count of writes that dropped bits.
const WIDTH: usize = GENERAL + 32;

const HIGH: usize = WIDTH + 1;

const STVEC: usize = WIDTH + 2;

const SCAUSE: usize = WIDTH + 3;

const STVAL: usize = WIDTH + 4;

const DROPPED: usize = WIDTH + 5;

// How many words a block has.
pub const LENGTH: usize = WIDTH + 6;

// The stored registers of a block.
fn csrs_of(b: &[u64]) -> [u64; 20]
    requires { length b.now ≡ block_length }
    ensures { result ≡ take first_count b.now ++ (high_word b.now ∷ []) }
{
    let mut csrs = [0; 20];
    csrs[..LINES].copy_from_slice(&b[..LINES]);
    csrs[Hart::HTIMEDELTAH] = b[HIGH];
    csrs
}

// The general registers of a block.
fn general_of(b: &[u64]) -> [u64; 32]
    requires { length b.now ≡ block_length }
    ensures { result ≡ take general_count (drop general_at b.now) }
{
    let mut x = [0; 32];
    x.copy_from_slice(&b[GENERAL..WIDTH]);
    x
}

// The block has its length, each flag and mode word is 0 or 1, the page's address is 0 where no page is set, the count is below 2^32, and the width is
// 32 or 64.
pub fn is_well_formed(b: &[u64]) -> bool
    ensures value { result ≡ well_formed b.now }
    ensures size { IsTrue result → length b.now ≡ block_length }
{
    if b.len() != LENGTH {
        return false;
    }
    (b[PAGE_SET] <= 1)
        & ((b[PAGE_SET] == 1) | (b[PAGE_AT] == 0))
        & (b[VIRT] <= 1)
        & (b[MODE] <= 1)
        & (b[SIE] <= 1)
        & (b[SPIE] <= 1)
        & (b[SPP] <= 1)
        & (b[DROPPED] <= 0xFFFF_FFFF)
        & Xlen::try_from(b[WIDTH]).is_ok()
}

// The record that a block holds.
pub fn decode(b: &[u64]) -> Hart
    requires { length b.now ≡ block_length }
    ensures { result ≡ record_of b.now }
{
    Hart {
        xlen: Xlen::try_from(b[WIDTH]).unwrap_or(Xlen::X64),
        csrs: csrs_of(b),
        lines: b[LINES],
        shmem: (b[PAGE_SET] == 1).then_some(b[PAGE_AT]),
        virt: b[VIRT] == 1,
        mode: Mode::from(b[MODE] == 1),
        pc: b[PC],
        sepc: b[SEPC],
        stvec: b[STVEC],
        scause: b[SCAUSE],
        stval: b[STVAL],
        sie: b[SIE] == 1,
        spie: b[SPIE] == 1,
        spp: b[SPP] == 1,
        dropped: (b[DROPPED] % 0x1_0000_0000) as u32,
        features: b[FEATURES],
        x: general_of(b),
    }
}

// The words between the first stored and the general registers.
fn middle(h: Hart) -> [u64; 11]
    ensures { result ≡ middle h }
{
    [
        h.lines,
        u64::from(h.shmem.is_some()),
        h.shmem.unwrap_or(0),
        u64::from(h.virt),
        u64::from(h.mode == Mode::S),
        h.pc,
        h.sepc,
        u64::from(h.sie),
        u64::from(h.spie),
        u64::from(h.spp),
        h.features,
    ]
}

// The words after the general registers.
fn last(h: Hart) -> [u64; 6]
    ensures { result ≡ last h }
{
    [
        u64::from(h.xlen),
        h.csrs[Hart::HTIMEDELTAH],
        h.stvec,
        h.scause,
        h.stval,
        u64::from(h.dropped),
    ]
}

// Stores a record in a block. The lines take the place of htimedeltah.
pub fn store(b: &mut [u64], h: Hart)
    requires { length b.old ≡ block_length }
    ensures { b.new ≡ block_of h }
{
    b[..LINES].copy_from_slice(&h.csrs[..LINES]);
    b[LINES..GENERAL].copy_from_slice(&middle(h));
    b[GENERAL..WIDTH].copy_from_slice(&h.x);
    b[WIDTH..LENGTH].copy_from_slice(&last(h));
}
