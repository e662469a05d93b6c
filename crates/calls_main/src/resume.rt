// SRET and line changes, run: what they leave.
use crate::{BASE, ours, print};
use checks::answer::Success;
use checks::fid;
use hart::record::Hart;
use layout::xlen::Xlen;
use layout::{dirty, place, word};
use nacl::{calls, lines};
use std::io;

// A hart that returns to S at 0x1000, with these features, hideleg, hgeie and lines.
fn returning(x: Xlen, features: u64) -> Hart {
    Hart {
        lines: 0x08,
        shmem: Some(BASE),
        pc: 0x2222,
        sepc: 0x1000,
        spie: true,
        spp: true,
        ..Hart::fresh(x, features)
            .write_number(0x607, 0x08)
            .write_number(0x603, 0x444)
    }
}

// Stores the word of the register at turn t.
fn put_csr(x: Xlen, page: &mut [u8; 12288], t: usize, v: u64) {
    word::put_word(x, page, place::csr_at(x, csr::index(t)), v);
}

// The word of the register at turn t.
fn csr_word(x: Xlen, page: &[u8; 12288], t: usize) -> u64 {
    word::word_at(x, page, place::csr_at(x, csr::index(t)))
}

// A context with 0x100 + i in word i, the swap word 0x3280 with all flags set, and hstatus dirty with 0x80.
fn fill(x: Xlen, page: &mut [u8; 12288]) {
    for i in 0..64 {
        word::put_word(x, page, place::context_at(x, i), 0x100 + i as u64);
    }
    word::put_word(x, page, place::FLAGS_AT, u64::MAX);
    word::put_word(x, page, place::swap_at(x), 0x3280);
    put_csr(x, page, csr::HSTATUS, 0x80);
    dirty::set_dirty(page, csr::index(csr::HSTATUS));
}

// The fields that SRET changes.
fn show(rt: &impl Print, h: Hart) -> io::Result<()> {
    println!(rt; "hstatus {:x}", h.csrs[Hart::HSTATUS])?;
    println!(rt; "V {}", h.virt as u8)?;
    println!(rt; "mode {}", h.mode as u8)?;
    println!(rt; "pc {:x}", h.pc)?;
    println!(rt; "SIE {}", h.sie as u8)?;
    println!(rt; "SPIE {}", h.spie as u8)?;
    println!(rt; "SPP {}", h.spp as u8)?;
    for i in [0, 1, 31] {
        println!(rt; "x{i} {:x}", h.x[i])?;
    }
    Ok(())
}

// The words that a line change stores.
fn show_line_words(rt: &impl Print, x: Xlen, page: &[u8; 12288]) -> io::Result<()> {
    println!(rt; "word of hgeip {:x}", csr_word(x, page, csr::HGEIP))?;
    println!(rt; "word of hip {:x}", csr_word(x, page, csr::HIP))?;
    println!(rt; "word of vsip {:x}", csr_word(x, page, csr::VSIP))
}

// And those that SRET stores, with the swap word.
fn show_words(rt: &impl Print, x: Xlen, page: &[u8; 12288]) -> io::Result<()> {
    let is_dirty = dirty::is_dirty(page, csr::index(csr::HSTATUS));
    println!(rt; "swap word {:x}", word::word_at(x, page, place::swap_at(x)))?;
    println!(rt; "word of hstatus {:x}", csr_word(x, page, csr::HSTATUS))?;
    println!(rt; "hstatus dirty {}", is_dirty as u8)?;
    show_line_words(rt, x, page)
}

// SRET of this width with these features.
pub fn sret(rt: &impl Print, x: Xlen, features: u64) -> io::Result<()> {
    let mut page = [0u8; 12288];
    let mut table = [0u64; 4];
    let mut said = [0u64; 52];
    fill(x, &mut page);
    let done = calls::call(
        returning(x, features),
        BASE,
        &mut page,
        &mut table,
        ours(fid::SYNC_SRET, 0, 0, 0),
        &mut said,
    );
    let is_resumed = done.answer == Ok(Success::Resumed);
    println!(rt; "SRET resumed {}", is_resumed as u8)?;
    show(rt, done.hart)?;
    show_words(rt, x, &page)
}

// A line change on a page whose hip is dirty with 0xEE and whose vsip has 0xFF.
fn change(rt: &impl Print, x: Xlen, name: &str, number: u64, table: &[u64]) -> io::Result<()> {
    let mut page = [0u8; 12288];
    put_csr(x, &mut page, csr::HIP, 0xEE);
    put_csr(x, &mut page, csr::VSIP, 0xFF);
    dirty::set_dirty(&mut page, csr::index(csr::HIP));
    let done = lines::change(returning(x, 15), BASE, &mut page, table, number);
    print::answer(rt, name, done.answer)?;
    println!(rt; "lines {:x}", done.hart.lines)?;
    show_line_words(rt, x, &page)
}

// A line change that is accepted.
pub fn line_change(rt: &impl Print, x: Xlen) -> io::Result<()> {
    change(rt, x, "line 1 up", 0x02, &[0u64; 4])
}

// Line changes: three that are refused, and that one.
pub fn line_changes(rt: &impl Print) -> io::Result<()> {
    let slots = [0u64; 4];
    change(rt, Xlen::X64, "line 0 up", 0x01, &slots)?;
    change(rt, Xlen::X64, "line 8 up", 0x100, &slots)?;
    change(rt, Xlen::X64, "table of 3 words", 0x02, &slots[0..3])?;
    line_change(rt, Xlen::X64)
}
