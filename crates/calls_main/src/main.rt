// Every row of 01's table of codes, run: for each call its code, its value and whether it says resumed; and then XLEN 32.
#![tactic(auto)]

ghost use Rattle.std.specs.Prelude.{◌≤◌};

use checks::call::Call;
use checks::fid;
use hart::record::{Hart, Mode};
use layout::xlen::Xlen;
use nacl::calls;
use std::io;

mod narrow;
mod print;
mod resume;

// Where L1 memory begins.
const BASE: u64 = 0x8000_0000;

// 64 ones, and the page's bytes.
const ONES: u64 = fid::ALL_ONES;

const PAGE: usize = Hart::PAGE_SIZE;

// A hart of this width with these features and this page address, V, mode and lines, and otherwise fresh.
fn hart_of(x: Xlen, features: u64, shmem: Option<u64>, virt: bool, mode: Mode, lines: u64) -> Hart {
    Hart {
        lines,
        shmem,
        virt,
        mode,
        ..Hart::fresh(x, features)
    }
}

// One of XLEN 64.
fn hart(features: u64, shmem: Option<u64>, virt: bool, mode: Mode, lines: u64) -> Hart {
    hart_of(Xlen::X64, features, shmem, virt, mode, lines)
}

// A hart with all features, its page at this address.
fn paged(at: u64) -> Hart {
    hart(15, Some(at), false, Mode::S, 0)
}

// One that is not well made: line 0 is up.
fn ill() -> Hart {
    hart(15, Some(BASE), false, Mode::S, 1)
}

// One with V on and these lines.
fn guest(lines: u64) -> Hart {
    hart(15, Some(BASE), true, Mode::S, lines)
}

// One in mode U.
fn user() -> Hart {
    hart(15, Some(BASE), false, Mode::U, 0)
}

// A hart with these features, its page at the start of memory.
fn ready(features: u64) -> Hart {
    hart(features, Some(BASE), false, Mode::S, 0)
}

// The same without a page.
fn bare() -> Hart {
    hart(15, None, false, Mode::S, 0)
}

// The call on the first `bytes` bytes of memory, of which there is one more than the page has, and the first `words` of 1,028 words of table.
pub fn row(
    rt: &impl Print,
    name: &str,
    h: Hart,
    bytes: usize,
    words: usize,
    c: Call,
) -> io::Result<()> {
    let mut memory = [0u8; 12289];
    let mut table = [0u64; 1028];
    let m = &mut memory[..bytes.min(12289)];
    let t = &mut table[..words.min(1028)];
    let mut said = [0u64; 52];
    let done = calls::call(h, BASE, m, t, c, &mut said);
    print::answer(rt, name, done.answer)
}

// A call of the extension.
fn ours(fid: u64, a0: u64, a1: u64, a2: u64) -> Call {
    Call {
        eid: fid::EID,
        fid,
        a0,
        a1,
        a2,
    }
}

// A call of the extension on a whole page and no slots.
fn plain(
    rt: &impl Print,
    name: &str,
    h: Hart,
    fid: u64,
    a0: u64,
    a1: u64,
    a2: u64,
) -> io::Result<()> {
    row(
        rt,
        name,
        h,
        Hart::page_size(h.xlen),
        0,
        ours(fid, a0, a1, a2),
    )
}

// One with one argument.
fn single(rt: &impl Print, name: &str, h: Hart, fid: u64, a0: u64) -> io::Result<()> {
    plain(rt, name, h, fid, a0, 0, 0)
}

// Set on a hart without a page.
fn set(rt: &impl Print, name: &str, lo: u64, hi: u64, flags: u64) -> io::Result<()> {
    plain(rt, name, bare(), fid::SET, lo, hi, flags)
}

// A call of another extension.
fn foreign(rt: &impl Print, name: &str, h: Hart, eid: u64, fid: u64) -> io::Result<()> {
    let c = Call {
        eid,
        ..ours(fid, 0, 0, 0)
    };
    row(rt, name, h, PAGE, 0, c)
}

fn check_1(rt: &impl Print) -> io::Result<()> {
    row(
        rt,
        "1 table of 3 words",
        ready(15),
        PAGE,
        3,
        ours(fid::PROBE, 0, 0, 0),
    )?;
    row(
        rt,
        "1 table of 1,028 words",
        ready(15),
        PAGE,
        1028,
        ours(fid::PROBE, 0, 0, 0),
    )?;
    single(rt, "1 line 0 up", ill(), fid::PROBE, 0)?;
    foreign(rt, "1 before 3", ill(), 0, 9)?;
    single(rt, "1 before 2", guest(1), fid::PROBE, 0)?;
    single(rt, "1 page unaligned", paged(BASE + 8), fid::PROBE, 0)
}

fn checks_2_to_4(rt: &impl Print) -> io::Result<()> {
    single(rt, "2 V on", guest(0), fid::PROBE, 0)?;
    single(rt, "2 mode U", user(), fid::PROBE, 0)?;
    single(rt, "2 before 5", guest(0), fid::SYNC_FENCE, 60)?;
    foreign(rt, "3 other EID", ready(15), 0x4E41434D, 0)?;
    foreign(rt, "3 EID above 32 bits", ready(15), 0x1_4E41434C, 0)?;
    single(rt, "3 FID 5", ready(15), 5, 0)?;
    single(rt, "3 FID above 32 bits", ready(15), 0x1_0000_0000, 0)?;
    single(
        rt,
        "4 sync CSR without feature 0",
        ready(14),
        fid::SYNC_CSR,
        ONES,
    )?;
    single(
        rt,
        "4 sync fence without feature 1",
        ready(13),
        fid::SYNC_FENCE,
        ONES,
    )?;
    single(rt, "4 SRET without feature 2", ready(11), fid::SYNC_SRET, 0)?;
    single(rt, "4 before 5", ready(14), fid::SYNC_CSR, 0x344)
}

fn check_5(rt: &impl Print) -> io::Result<()> {
    set(rt, "5 set with flags 1", BASE, 0, 1)?;
    plain(
        rt,
        "5 drop with flags 1",
        ready(15),
        fid::SET,
        ONES,
        ONES,
        1,
    )?;
    set(rt, "5 set unaligned", BASE + 1, 0, 0)?;
    set(rt, "5 lo all-ones with hi 0", ONES, 0, 0)?;
    set(rt, "5 before 6", BASE + 1, 1, 0)?;
    single(rt, "5 sync 0x344", ready(15), fid::SYNC_CSR, 0x344)?;
    single(rt, "5 sync 0x1644", ready(15), fid::SYNC_CSR, 0x1644)?;
    single(rt, "5 sync 0x6A8", ready(15), fid::SYNC_CSR, 0x6A8)?;
    single(rt, "5 sync 0x615", ready(15), fid::SYNC_CSR, 0x615)?;
    single(rt, "5 sync 0x61A", ready(15), fid::SYNC_CSR, 0x61A)?;
    single(rt, "5 sync 32 ones", ready(15), fid::SYNC_CSR, 0xFFFF_FFFF)?;
    single(rt, "5 fence 60", ready(15), fid::SYNC_FENCE, 60)?;
    single(rt, "5 before 7", bare(), fid::SYNC_FENCE, 60)
}

fn check_6(rt: &impl Print) -> io::Result<()> {
    set(rt, "6 hi 1", BASE, 1, 0)?;
    set(rt, "6 hi all-ones", BASE, ONES, 0)?;
    set(rt, "6 before memory", BASE - 4096, 0, 0)?;
    set(rt, "6 after memory's begin", BASE + 4096, 0, 0)?;
    set(rt, "6 near 2^64", 0xFFFF_FFFF_FFFF_F000, 0, 0)?;
    row(
        rt,
        "6 memory one byte short",
        bare(),
        12287,
        0,
        ours(fid::SET, BASE, 0, 0),
    )?;
    row(
        rt,
        "6 memory of 8,192 bytes",
        bare(),
        8192,
        0,
        ours(fid::SET, BASE, 0, 0),
    )?;
    row(rt, "6 no memory", bare(), 0, 0, ours(fid::SET, BASE, 0, 0))
}

fn check_7(rt: &impl Print) -> io::Result<()> {
    single(rt, "7 sync CSR, no page", bare(), fid::SYNC_CSR, ONES)?;
    single(rt, "7 sync fence, no page", bare(), fid::SYNC_FENCE, ONES)?;
    single(rt, "7 SRET, no page", bare(), fid::SYNC_SRET, 0)?;
    row(
        rt,
        "7 memory one byte short",
        ready(15),
        12287,
        0,
        ours(fid::SYNC_CSR, ONES, 0, 0),
    )?;
    single(
        rt,
        "7 page at the next 4096",
        paged(BASE + 4096),
        fid::SYNC_SRET,
        0,
    )
}

// What is accepted.
fn successes(rt: &impl Print) -> io::Result<()> {
    single(rt, "probe 0", ready(5), fid::PROBE, 0)?;
    single(rt, "probe 1", ready(5), fid::PROBE, 1)?;
    single(rt, "probe 2", ready(5), fid::PROBE, 2)?;
    single(rt, "probe 3", ready(15), fid::PROBE, 3)?;
    single(rt, "probe 4", ready(15), fid::PROBE, 4)?;
    single(rt, "probe 64", ready(15), fid::PROBE, 64)?;
    single(rt, "probe 2^32 + 2", ready(5), fid::PROBE, 0x1_0000_0002)?;
    set(rt, "set", BASE, 0, 0)?;
    row(
        rt,
        "set, one byte to spare",
        bare(),
        12289,
        0,
        ours(fid::SET, BASE, 0, 0),
    )?;
    plain(rt, "drop", ready(15), fid::SET, ONES, ONES, 0)?;
    set(rt, "drop, no page", ONES, ONES, 0)?;
    plain(rt, "sync CSR 0x645", ready(15), fid::SYNC_CSR, 0x645, 7, 7)?;
    single(rt, "sync CSR all-ones", ready(15), fid::SYNC_CSR, ONES)?;
    single(rt, "sync fence 59", ready(15), fid::SYNC_FENCE, 59)?;
    row(
        rt,
        "sync fence all-ones, 1,024 words",
        ready(15),
        PAGE,
        1024,
        ours(fid::SYNC_FENCE, ONES, 0, 0),
    )?;
    plain(rt, "SRET", ready(15), fid::SYNC_SRET, 7, 7, 7)
}

fn main(rt: HostRuntime) -> io::Result<()> {
    check_1(&rt)?;
    checks_2_to_4(&rt)?;
    check_5(&rt)?;
    check_6(&rt)?;
    check_7(&rt)?;
    successes(&rt)?;
    resume::sret(&rt, Xlen::X64, 15)?;
    // Feature 2 alone: nothing is synchronized or swapped, and every word is clean.
    resume::sret(&rt, Xlen::X64, 4)?;
    resume::line_changes(&rt)?;
    narrow::rows(&rt)?;
    resume::sret(&rt, Xlen::X32, 15)?;
    resume::line_change(&rt, Xlen::X32)
}
