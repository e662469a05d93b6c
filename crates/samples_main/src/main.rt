// Sample tickets T1, T2, T6, T7 and T8 of the scope paper: where two registers stand in the page, and what four writes read back;
// then the first two at XLEN 32.
#![tactic(auto)]

ghost use Rattle.std.specs.Prelude.{◌<◌};
ghost use Rattle.layout.specs.Geometry.{index_of};

use hart::record::Hart;
use layout::xlen::Xlen;
use layout::{dirty, place};
use std::io;

// T1, T2: the index of a CSR number, where its word stands, and what its dirty bit leaves in the bitmap's byte that the ticket names.
fn places(rt: &impl Print, x: Xlen, number: u64, byte: usize) -> io::Result<()>
    requires index { index_of number < 1024 }
    requires byte { byte < Hart.PAGE_SIZE }
{
    let index = place::index_of(number);
    let mut page = [0u8; Hart::PAGE_SIZE];
    dirty::set_dirty(&mut page, index);
    println!(rt; "csr {number:x}")?;
    println!(rt; "index {index:x}")?;
    println!(rt; "word {:x}", place::csr_at(x, index))?;
    println!(rt; "byte {byte:x}")?;
    println!(rt; "holds {:x}", page[byte])
}

// T6: hvip written 0xFFFF; hideleg 0x004 then gives vsip.
fn ticket6(rt: &impl Print) -> io::Result<()> {
    let h = Hart::fresh(Xlen::X64, 15).write_number(0x645, 0xFFFF);
    println!(rt; "hvip {:x}", h.read(csr::HVIP))?;
    let delegated = h.write_number(0x603, 0x004);
    println!(rt; "vsip {:x}", delegated.read(csr::VSIP))
}

// T7: line 3 up, VGEIN 3, hgeie 0x08, hvip 0.
fn ticket7(rt: &impl Print) -> io::Result<()> {
    let h = Hart::fresh(Xlen::X64, 15)
        .write_number(0x600, 0x3000)
        .write_number(0x607, 0x08)
        .with_lines(8);
    println!(rt; "hip {:x}", h.read(csr::HIP))
}

// T8: fresh hgatp written 0x9000000000000007.
fn ticket8(rt: &impl Print) -> io::Result<()> {
    let h = Hart::fresh(Xlen::X64, 15).write_number(0x680, 0x9000_0000_0000_0007);
    println!(rt; "hgatp {:x}", h.read(csr::HGATP))
}

fn main(rt: HostRuntime) -> io::Result<()> {
    places(&rt, Xlen::X64, 0x644, 0xFA8)?;
    places(&rt, Xlen::X64, 0xE12, 0xFE2)?;
    ticket6(&rt)?;
    ticket7(&rt)?;
    ticket8(&rt)?;
    println!(rt; "XLEN 32")?;
    places(&rt, Xlen::X32, 0x644, 0xFA8)?;
    places(&rt, Xlen::X32, 0xE12, 0xFE2)
}
