// Runs the fence entries of the paper's samples on small translation tables and writes what becomes of the slots: first XLEN 64, then XLEN 32.
#![tactic(auto)]

ghost use Rattle.std.specs.Prelude.{◌<◌};

use fence::{entry, table};
use layout::xlen::Xlen;
use std::io;

mod run;

// Config of a Pending entry with this Type, Order, VMID and ASID.
fn config(x: Xlen, kind: u64, order: u64, vmid: u64, asid: u64) -> u64 {
    match x {
        Xlen::X32 => (1 << 31) | (kind << 24) | (order << 16) | (vmid << 9) | asid,
        Xlen::X64 => (1 << 63) | (kind << 56) | (order << 48) | (vmid << 16) | asid,
    }
}

// The last page number there is.
fn last_page(x: Xlen) -> u64 {
    match x {
        Xlen::X32 => u64::from(u32::MAX),
        Xlen::X64 => u64::MAX,
    }
}

// A page against an entry of type 0 and this Order, Page_Number and Page_Count.
fn page(
    rt: &impl Print,
    x: Xlen,
    case: &str,
    order: u64,
    number: u64,
    count: u64,
    page: u64,
) -> io::Result<()> {
    let f = entry::decode(x, config(x, 0, order, 0, 0), number, 0, count);
    run::page(rt, case, f, page)
}

// The eight slots against an entry with this Config and word 2, for page 100 alone.
fn eight(
    rt: &impl Print,
    x: Xlen,
    case: &str,
    number: u64,
    config: u64,
    word2: u64,
) -> io::Result<()> {
    run::eight(rt, case, number, entry::decode(x, config, 100, word2, 1), 8)
}

// Ranges: samples T10 and T11.
fn ranges(rt: &impl Print, x: Xlen) -> io::Result<()> {
    let last = last_page(x);
    page(rt, x, "T10", 9, 1, 1, 511)?;
    page(rt, x, "T10", 9, 1, 1, 512)?;
    page(rt, x, "T10", 9, 1, 1, 1023)?;
    page(rt, x, "T10", 9, 1, 1, 1024)?;
    page(rt, x, "T11", 0, last, 2, 0)?;
    page(rt, x, "T11", 0, last, 2, last)
}

// Sample T12: Config after its Pending is cleared.
fn cleared(rt: &impl Print, x: Xlen) -> io::Result<()> {
    let digits = 2 * x.bytes();
    let cleared = entry::clear_pending(x, config(x, 2, 0, 5, 0));
    println!(rt; "T12 {cleared:0digits$x}")
}

// No slots: nothing is removed.
fn no_slots(rt: &impl Print, x: Xlen) -> io::Result<()> {
    let f = entry::decode(x, config(x, 1, 0, 0, 0), 100, 0, 1);
    let removed = table::remove_named(f, &mut [0; 0]);
    println!(rt; "no slots removes {removed}")
}

// Every type, for VMID 5 and ASID 7.
fn types(rt: &impl Print, x: Xlen) -> io::Result<()> {
    for kind in 0..8 {
        eight(rt, x, "type", kind, config(x, kind, 0, 5, 7), 0)?;
    }
    Ok(())
}

// An entry that a reserved bit makes unreadable.
fn reserved(rt: &impl Print, x: Xlen, bit: u64) -> io::Result<()>
    requires { bit < 64 }
{
    let config = config(x, 2, 0, 5, 0) | (1 << bit);
    eight(rt, x, "unreadable, bit", bit, config, 0)
}

// Entries that are unreadable: without the fault, all but the first are of type 2 and name slot 4 alone.
fn unreadable(rt: &impl Print, x: Xlen) -> io::Result<()> {
    eight(rt, x, "unreadable, type", 8, config(x, 8, 0, 0, 0), 0)?;
    match x {
        Xlen::X32 => {
            reserved(rt, x, 23)?;
            reserved(rt, x, 28)?;
            reserved(rt, x, 30)?;
        }
        Xlen::X64 => reserved(rt, x, 62)?,
    }
    let filled = config(x, 2, 0, 5, 0);
    eight(rt, x, "unreadable, word 2 is", 1, filled, 1)
}

// Removals that stop after so many slots.
fn limits(rt: &impl Print, x: Xlen) -> io::Result<()> {
    let f = entry::decode(x, config(x, 1, 0, 0, 0), 100, 0, 1);
    for limit in 0..8 {
        run::eight(rt, "type 1, at most", limit, f, limit)?;
    }
    Ok(())
}

fn wide_cases(rt: &impl Print) -> io::Result<()> {
    let x = Xlen::X64;
    ranges(rt, x)?;
    cleared(rt, x)?;
    page(rt, x, "Page_Count 0, page", 0, 5, 0, 5)?;
    no_slots(rt, x)?;
    types(rt, x)?;
    unreadable(rt, x)?;
    limits(rt, x)
}

// And the largest Order, with which every page is in range 0; and type 7 with the highest bit of VMID and of ASID, which no slot has.
fn narrow_cases(rt: &impl Print) -> io::Result<()> {
    let x = Xlen::X32;
    println!(rt; "XLEN 32")?;
    ranges(rt, x)?;
    page(rt, x, "Order 127, page", 127, 0, 1, last_page(x))?;
    cleared(rt, x)?;
    types(rt, x)?;
    eight(rt, x, "type 7, VMID", 69, config(x, 7, 0, 69, 7), 0)?;
    eight(rt, x, "type 7, ASID", 263, config(x, 7, 0, 5, 263), 0)?;
    unreadable(rt, x)
}

fn main(rt: HostRuntime) -> io::Result<()> {
    wide_cases(&rt)?;
    narrow_cases(&rt)
}
