// Writes each register of a width, in turn order, with all-ones, zero and each of the walking ones, from a fresh hart and from a full
// one, and prints the readings: the written register's, and every other that the write changed. First XLEN 64, then XLEN 32.
#![tactic(auto)]

use hart::record::Hart;
use layout::xlen::Xlen;
use std::io;

// Every bit of a word.
// Kept: as in `checks`, which this program does not stand on: it is about registers alone.
fn all_ones(x: Xlen) -> u64 {
    match x {
        Xlen::X32 => u64::from(u32::MAX),
        Xlen::X64 => u64::MAX,
    }
}

// What the register at turn t of a full hart was last written with: every bit, but for a MODE of 8 and a VGEIN of 7.
fn full_value(t: usize) -> u64 {
    match t {
        csr::HSTATUS => 0xFFFF_FFFF_FFFC_7FFF,
        csr::HGATP | csr::VSATP => 0x8FFF_FFFF_FFFF_FFFF,
        _ => u64::MAX,
    }
}

// A hart with every line up and every register full.
fn full(x: Xlen) -> Hart {
    let mut hart = Hart::fresh(x, 15).with_lines(0xFE);
    for t in 0..csr::COUNT {
        hart = hart.write_number(csr::number(t), full_value(t));
    }
    hart
}

// The readings after the register at turn t was written: that register's, and those that changed.
fn print_readings(rt: &impl Print, before: Hart, after: Hart, t: usize) -> io::Result<()> {
    let digits = 2 * before.xlen.bytes();
    for k in 0..csr::COUNT {
        let reading = after.read(k);
        if k == t || reading != before.read(k) {
            let number = csr::number(k);
            print!(rt; " {number:03x}={reading:0digits$x}")?;
        }
    }
    Ok(())
}

// One line: v is written to the register at turn t.
fn print_write(rt: &impl Print, start: &str, before: Hart, t: usize, v: u64) -> io::Result<()> {
    let number = csr::number(t);
    let digits = 2 * before.xlen.bytes();
    print!(rt; "{start} {number:03x} {v:0digits$x}")?;
    print_readings(rt, before, before.write(t, v), t)?;
    println!(rt; "")
}

// Every bit, zero, and then each bit by itself, written to the register at turn t of a hart.
fn print_values(rt: &impl Print, start: &str, hart: Hart, t: usize) -> io::Result<()> {
    print_write(rt, start, hart, t, all_ones(hart.xlen))?;
    print_write(rt, start, hart, t, 0)?;
    for bit in 0..8 * hart.xlen.bytes() {
        print_write(rt, start, hart, t, 1 << bit)?;
    }
    Ok(())
}

// Every value, written to every register that a hart has.
fn print_writes(rt: &impl Print, start: &str, hart: Hart) -> io::Result<()> {
    for t in 0..csr::COUNT {
        if csr::has(hart.xlen, t) {
            print_values(rt, start, hart, t)?;
        }
    }
    Ok(())
}

// The table of a width.
fn print_table(rt: &impl Print, x: Xlen) -> io::Result<()> {
    print_writes(rt, "fresh", Hart::fresh(x, 15))?;
    print_writes(rt, "full", full(x))
}

fn main(rt: HostRuntime) -> io::Result<()> {
    print_table(&rt, Xlen::X64)?;
    print_table(&rt, Xlen::X32)
}
