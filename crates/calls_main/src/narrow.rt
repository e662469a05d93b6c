// The rows at XLEN 32: a page has 8,192 bytes, 120 entries and 25 registers, and a number counts by its low 32 bits.
use crate::{BASE, hart_of, ours, plain, row, single};
use checks::call::Call;
use checks::fid;
use hart::record::{Hart, Mode};
use layout::xlen::Xlen;
use std::io;

// 32 ones, the page's bytes, and the first bit that a word does not have.
const ONES: u64 = fid::ALL_ONES_32;

const PAGE: usize = Hart::PAGE_SIZE_32;

const BIT_32: u64 = 0x1_0000_0000;

// A hart with all features and this page address.
fn hart(shmem: Option<u64>) -> Hart {
    hart_of(Xlen::X32, 15, shmem, false, Mode::S, 0)
}

// One whose page is at the start of memory.
fn ready() -> Hart {
    hart(Some(BASE))
}

// Set on a hart without a page.
fn set(rt: &impl Print, name: &str, lo: u64, hi: u64, flags: u64) -> io::Result<()> {
    plain(rt, name, hart(None), fid::SET, lo, hi, flags)
}

// Bit 32 of words of the record.
fn check_1(rt: &impl Print) -> io::Result<()> {
    let counter = Hart {
        pc: BIT_32,
        ..ready()
    };
    single(rt, "1 bit 32 of pc", counter, fid::PROBE, 0)?;
    let saved = Hart {
        sepc: BIT_32,
        ..ready()
    };
    single(rt, "1 bit 32 of sepc", saved, fid::PROBE, 0)?;
    let mut general = ready();
    general.x[31] = BIT_32;
    single(rt, "1 bit 32 of x31", general, fid::PROBE, 0)?;
    let mut stored = ready();
    stored.csrs[Hart::VSSCRATCH] = BIT_32;
    single(rt, "1 bit 32 of vsscratch", stored, fid::PROBE, 0)?;
    single(
        rt,
        "1 bit 32 of the page address",
        hart(Some(BIT_32)),
        fid::PROBE,
        0,
    )
}

// EID and FID with bit 32 are the numbers without it.
fn check_3(rt: &impl Print) -> io::Result<()> {
    let c = Call {
        eid: BIT_32 + fid::EID,
        ..ours(fid::PROBE, 0, 0, 0)
    };
    row(rt, "EID 2^32 + 0x4E41434C, probe 0", ready(), PAGE, 0, c)?;
    single(rt, "FID 2^32, probe 0", ready(), BIT_32, 0)?;
    single(rt, "3 FID 2^32 + 5", ready(), BIT_32 + 5, 0)
}

fn sync(rt: &impl Print) -> io::Result<()> {
    single(rt, "sync CSR 0x615", ready(), fid::SYNC_CSR, 0x615)?;
    single(rt, "sync CSR 0x61A", ready(), fid::SYNC_CSR, 0x61A)?;
    single(
        rt,
        "sync CSR 2^32 + 0x645",
        ready(),
        fid::SYNC_CSR,
        BIT_32 + 0x645,
    )?;
    single(rt, "sync CSR 32 ones", ready(), fid::SYNC_CSR, ONES)?;
    single(
        rt,
        "sync CSR 64 ones",
        ready(),
        fid::SYNC_CSR,
        fid::ALL_ONES,
    )?;
    single(rt, "5 sync 0x6A8", ready(), fid::SYNC_CSR, 0x6A8)?;
    single(rt, "sync fence 119", ready(), fid::SYNC_FENCE, 119)?;
    single(rt, "5 fence 120", ready(), fid::SYNC_FENCE, 120)?;
    single(rt, "sync fence 32 ones", ready(), fid::SYNC_FENCE, ONES)?;
    row(
        rt,
        "7 memory one byte short",
        ready(),
        8191,
        0,
        ours(fid::SYNC_CSR, ONES, 0, 0),
    )
}

fn sets(rt: &impl Print) -> io::Result<()> {
    set(rt, "set, memory of 8,192 bytes", BASE, 0, 0)?;
    set(rt, "set 2^32 + 0x80000000", BIT_32 + BASE, 0, 0)?;
    set(rt, "set, hi 2^32", BASE, BIT_32, 0)?;
    set(rt, "set, flags 2^32", BASE, 0, BIT_32)?;
    set(rt, "drop", ONES, ONES, 0)?;
    set(rt, "5 lo 32 ones with hi 0", ONES, 0, 0)?;
    set(rt, "6 near 2^32", 0xFFFF_F000, 0, 0)?;
    row(
        rt,
        "6 memory one byte short",
        hart(None),
        8191,
        0,
        ours(fid::SET, BASE, 0, 0),
    )
}

pub fn rows(rt: &impl Print) -> io::Result<()> {
    println!(rt; "XLEN 32")?;
    check_1(rt)?;
    check_3(rt)?;
    sync(rt)?;
    sets(rt)?;
    single(rt, "SRET", ready(), fid::SYNC_SRET, 0)
}
