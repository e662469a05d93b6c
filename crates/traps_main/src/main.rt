// The trap back from the guest, run at both widths. Of each case the answer is printed, and then what is left of the record and of the page.
#![tactic(auto)]

use checks::answer::{Answer, Success};
use checks::call::Call;
use checks::fid;
use hart::record::Hart;
use hart::trap::Trap;
use layout::xlen::Xlen;
use layout::{dirty, place, word};
use nacl::{calls, traps};
use std::io;

mod cases;

// Where L1 memory begins.
const BASE: u64 = 0x8000_0000;

// One line: the code, the value, resumed or not.
// Kept: calls_main prints an answer so too, and the two below stand there and in stops_main; a crate for them would have public functions of printing, of which no contract says anything.
fn answered(rt: &impl Print, name: &str, answer: Answer) -> io::Result<()> {
    match answer {
        Ok(Success::Value(v)) => println!(rt; "{name}: 0 {v}"),
        Ok(Success::Resumed) => println!(rt; "{name}: 0 0 resumed"),
        Err(refusal) => println!(rt; "{name}: {} 0", refusal.code()),
    }
}

// Stores the word of the register at turn t.
fn put_csr(x: Xlen, page: &mut [u8; 12288], t: usize, v: u64) {
    word::put_word(x, page, place::csr_at(x, csr::index(t)), v);
}

// The word of the register at turn t.
fn csr_word(x: Xlen, page: &[u8; 12288], t: usize) -> u64 {
    word::word_at(x, page, place::csr_at(x, csr::index(t)))
}

// What is printed of a record.
fn record(rt: &impl Print, h: Hart) -> io::Result<()> {
    print!(rt; "  hstatus {:x} V {}", h.csrs[Hart::HSTATUS], h.virt as u8)?;
    print!(rt; " mode {} pc {:x} sepc {:x}", h.mode as u8, h.pc, h.sepc)?;
    print!(rt;
        " SPP {} SPIE {} SIE {}",
        h.spp as u8, h.spie as u8, h.sie as u8
    )?;
    println!(rt; " x1 {:x}", h.x[1])?;
    print!(rt; "  scause {:x} stval {:x}", h.scause, h.stval)?;
    println!(rt;
        " htval {:x} htinst {:x}",
        h.csrs[Hart::HTVAL],
        h.csrs[Hart::HTINST]
    )
}

// The words that a trap stores, that of hgeip, which it does not, the swap word, and the dirty bits of htval and hip.
fn words(rt: &impl Print, x: Xlen, page: &[u8; 12288]) -> io::Result<()> {
    print!(rt; "  words")?;
    for t in [csr::HSTATUS, csr::HTVAL, csr::HTINST, csr::HIP, csr::VSIP] {
        print!(rt; " {:x}", csr_word(x, page, t))?;
    }
    let hgeip = csr_word(x, page, csr::HGEIP);
    let swap = word::word_at(x, page, place::swap_at(x));
    let htval = dirty::is_dirty(page, csr::index(csr::HTVAL)) as u8;
    let hip = dirty::is_dirty(page, csr::index(csr::HIP)) as u8;
    println!(rt; " hgeip {hgeip:x} swap {swap:x} dirty {htval} {hip}")
}

// The record and the words.
fn left(rt: &impl Print, h: Hart, page: &[u8; 12288]) -> io::Result<()> {
    record(rt, h)?;
    words(rt, h.xlen, page)
}

// What a trap reports: each word has bits above 31.
fn report(gva: bool) -> Trap {
    Trap {
        cause: 0x8000_0000_0000_000A,
        tval: 0xFFFF_FFFF_8000_1234,
        htval: 0x1_2345_6789,
        htinst: 0x2_0000_3020,
        gva,
    }
}

// A trap: its answer is printed, and the record comes back.
fn trap(
    rt: &impl Print,
    name: &str,
    h: Hart,
    memory: &mut [u8; 12288],
    table: &[u64],
    gva: bool,
) -> io::Result<Hart> {
    let mut said = [0u64; 52];
    let done = traps::trap(h, BASE, memory, table, report(gva), &mut said);
    answered(rt, name, done.answer)?;
    Ok(done.hart)
}

// The same of a call with one argument and one slot.
fn call(
    rt: &impl Print,
    name: &str,
    h: Hart,
    memory: &mut [u8; 12288],
    fid: u64,
    a0: u64,
) -> io::Result<Hart> {
    let mut table = [0u64; 4];
    let mut said = [0u64; 52];
    let done = calls::call(
        h,
        BASE,
        memory,
        &mut table,
        Call {
            eid: fid::EID,
            fid,
            a0,
            a1: 0,
            a2: 0,
        },
        &mut said,
    );
    answered(rt, name, done.answer)?;
    Ok(done.hart)
}

fn main(rt: HostRuntime) -> io::Result<()> {
    println!(rt; "XLEN 64")?;
    cases::every_case(&rt, Xlen::X64)?;
    println!(rt; "XLEN 32")?;
    cases::every_case(&rt, Xlen::X32)
}
