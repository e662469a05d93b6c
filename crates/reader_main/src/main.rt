// Hands out fence entries of a page whose byte i is i mod 251, at both register widths, and writes how long each part is and which bytes
// it begins and ends with.
#![tactic(auto)]

use layout::xlen::Xlen;
use std::{array, io};

// `page LENGTH entry E length LENGTH`, and of a part that isn't empty its first and last byte.
fn show(rt: &impl Print, x: Xlen, page: &[u8], e: usize) -> io::Result<()> {
    let part = reader::entry(x, page, e);
    print!(rt; "page {} entry {e} length {}", page.len(), part.len())?;
    if let [first, .., last] = part {
        print!(rt; " first {first} last {last}")?;
    }
    println!(rt; "")
}

fn wide_cases(rt: &impl Print, bytes: &[u8; 12289]) -> io::Result<()> {
    let x = Xlen::X64;
    show(rt, x, &bytes[..12288], 0)?;
    show(rt, x, &bytes[..12288], 1)?;
    show(rt, x, &bytes[..12288], 59)?;
    show(rt, x, &bytes[..12288], 60)?;
    show(rt, x, &bytes[..12288], usize::MAX)?;
    show(rt, x, &bytes[..12287], 0)?;
    show(rt, x, &bytes[..12289], 0)?;
    show(rt, x, &bytes[..0], 0)?;
    show(rt, x, &bytes[..8192], 0)
}

fn narrow_cases(rt: &impl Print, bytes: &[u8; 12289]) -> io::Result<()> {
    let x = Xlen::X32;
    println!(rt; "XLEN 32")?;
    show(rt, x, &bytes[..8192], 0)?;
    show(rt, x, &bytes[..8192], 1)?;
    show(rt, x, &bytes[..8192], 119)?;
    show(rt, x, &bytes[..8192], 120)?;
    show(rt, x, &bytes[..8191], 0)?;
    show(rt, x, &bytes[..8193], 0)?;
    show(rt, x, &bytes[..12288], 0)
}

fn main(rt: HostRuntime) -> io::Result<()> {
    // The bytes of the page, and one more.
    let bytes = array::from_fn(|i| (i % 251) as u8);
    wide_cases(&rt, &bytes)?;
    narrow_cases(&rt, &bytes)
}
