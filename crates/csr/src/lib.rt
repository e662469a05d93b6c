// The implemented registers of either width by their turns, from 0: their numbers, their indexes, which of them a width has, and their followers.
#![tactic(auto)]

ghost use Rattle.std.specs.Prelude.{◌≡◌, ℕ, ◌/◌, ◌%◌, ◌^◌, ◌<◌, eqb};
ghost use Rattle.layout.specs.Geometry.{index_of};
ghost use Rattle.csr.specs.Csrs.{csr_count, number as number_of, at_turn, follower, has as has_csr, lookup};

use layout::place;
use layout::xlen::Xlen;

mod places;

// How many registers there are: 25 at XLEN 32, of which 64 lacks the two upper halves.
pub const COUNT: usize = 25;

// The turns of the registers.
// Kept: numbers, and not an enum: a turn is a position in an order, which loops and bit masks count and which the C interface of `lookup` answers.
pub const HSTATUS: usize = 0;

pub const HGEIP: usize = 1;

pub const HGEIE: usize = 2;

pub const HIDELEG: usize = 3;

pub const HVIP: usize = 4;

pub const HIE: usize = 5;

pub const HIP: usize = 6;

pub const VSIE: usize = 7;

pub const VSIP: usize = 8;

pub const HEDELEG: usize = 9;

pub const HTIMEDELTA: usize = 10;

pub const HTIMEDELTAH: usize = 11;

pub const HCOUNTEREN: usize = 12;

pub const HENVCFG: usize = 13;

pub const HENVCFGH: usize = 14;

pub const HTVAL: usize = 15;

pub const HTINST: usize = 16;

pub const HGATP: usize = 17;

pub const VSSTATUS: usize = 18;

pub const VSTVEC: usize = 19;

pub const VSSCRATCH: usize = 20;

pub const VSEPC: usize = 21;

pub const VSCAUSE: usize = 22;

pub const VSTVAL: usize = 23;

pub const VSATP: usize = 24;

// The CSR number of the register at turn t; past the last turn, the last register's.
pub fn number(t: usize) -> u64
    ensures { result ≡ number_of (at_turn t) }
{
    match t {
        HSTATUS => 0x600,
        HGEIP => 0xE12,
        HGEIE => 0x607,
        HIDELEG => 0x603,
        HVIP => 0x645,
        HIE => 0x604,
        HIP => 0x644,
        VSIE => 0x204,
        VSIP => 0x244,
        HEDELEG => 0x602,
        HTIMEDELTA => 0x605,
        HTIMEDELTAH => 0x615,
        HCOUNTEREN => 0x606,
        HENVCFG => 0x60A,
        HENVCFGH => 0x61A,
        HTVAL => 0x643,
        HTINST => 0x64A,
        HGATP => 0x680,
        VSSTATUS => 0x200,
        VSTVEC => 0x205,
        VSSCRATCH => 0x240,
        VSEPC => 0x241,
        VSCAUSE => 0x242,
        VSTVAL => 0x243,
        _ => 0x280, // VSATP
    }
}

// Its index: where its word and its dirty bit stand in the page.
pub fn index(t: usize) -> usize
    ensures { (result ≡ index_of (number_of (at_turn t))) × (result < 1024) }
{
    match t {
        HSTATUS => 0x100,
        HGEIP => 0x312,
        HGEIE => 0x107,
        HIDELEG => 0x103,
        HVIP => 0x145,
        HIE => 0x104,
        HIP => 0x144,
        VSIE => 0x4,
        VSIP => 0x44,
        HEDELEG => 0x102,
        HTIMEDELTA => 0x105,
        HTIMEDELTAH => 0x115,
        HCOUNTEREN => 0x106,
        HENVCFG => 0x10A,
        HENVCFGH => 0x11A,
        HTVAL => 0x143,
        HTINST => 0x14A,
        HGATP => 0x180,
        VSSTATUS => 0x0,
        VSTVEC => 0x5,
        VSSCRATCH => 0x40,
        VSEPC => 0x41,
        VSCAUSE => 0x42,
        VSTVAL => 0x43,
        _ => 0x80, // VSATP
    }
}

// The width has the register at turn t: XLEN 64 has no upper halves.
pub fn has(x: Xlen, t: usize) -> bool
    ensures { result ≡ has_csr x (at_turn t) }
{
    match t {
        HTIMEDELTAH | HENVCFGH => x == Xlen::X32,
        _ => true,
    }
}

// The turns of the registers of each width, a bit for each.
const TURNS_32: u64 = 0x1FF_FFFF;

const TURNS_64: u64 = 0x1FF_B7FF;

// The turns of the registers that the width has, a bit for each: a loop over turns tests its bit.
pub fn turns_had(x: Xlen) -> u64
    ensures { (t : ℕ) → t < csr_count → eqb (result / 2 ^ t % 2) 1 ≡ has_csr x (at_turn t) }
{
    match x {
        Xlen::X32 => TURNS_32,
        Xlen::X64 => TURNS_64,
    }
}

// The turn of the register with number n, if this width has it.
pub fn of_number(x: Xlen, n: u64) -> Option<usize>
    ensures { result ≡ lookup x n }
{
    // Several numbers share an index; bits 9:8 and those above 11 tell them apart. In every implemented number these are 2 and 0: a number with
    // others is none, and one with these is the register of its index, if there is one.
    if n & 0x300 != 0x200 {
        return None;
    }
    if n >= 0x1000 {
        return None;
    }
    places::at_index(x, place::index_of(n))
}

// The first follower of the register at turn t.
// Kept: a function for each follower, and not a list of them: each is stored by itself, and a list of at most two would need a length beside it.
pub fn first_follower(t: usize) -> Option<usize>
    ensures { result ≡ follower t 0 }
{
    match t {
        HSTATUS => Some(HIP),
        HGEIE => Some(HIP),
        HIDELEG => Some(VSIE),
        HVIP => Some(HIP),
        HIE => Some(VSIE),
        HIP => Some(HVIP),
        VSIE => Some(HIE),
        VSIP => Some(HVIP),
        _ => None,
    }
}

// The second follower of the register at turn t. No register has a third.
pub fn second_follower(t: usize) -> Option<usize>
    ensures { result ≡ follower t 1 }
{
    match t {
        HSTATUS => Some(VSIP),
        HIDELEG => Some(VSIP),
        HVIP => Some(VSIP),
        HIP => Some(VSIP),
        VSIP => Some(HIP),
        _ => None,
    }
}
