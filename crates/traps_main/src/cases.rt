// The cases: from S and from U, words in the way, no page, the swap, what is refused, and a way into the guest and back.
use crate::{BASE, call, left, put_csr, record, trap};
use checks::fid;
use hart::record::{Hart, Mode};
use layout::xlen::Xlen;
use layout::{dirty, place, word};
use std::io;

// All autoswap flags.
const FLAGS: u64 = u64::MAX;

const BIT_32: u64 = 0x1_0000_0000;

// A table of one slot.
const SLOT: [u64; 4] = [0; 4];

// A page with these autoswap flags, a swap word that is no value of hstatus, and words that are no readings.
fn filled(x: Xlen, flags: u64) -> [u8; 12288] {
    let mut page = [0u8; 12288];
    word::put_word(x, &mut page, place::FLAGS_AT, flags);
    word::put_word(x, &mut page, place::swap_at(x), 0xFF80_107F);
    put_csr(x, &mut page, csr::HSTATUS, 0x11);
    put_csr(x, &mut page, csr::HTVAL, 0x22);
    put_csr(x, &mut page, csr::HTINST, 0x33);
    put_csr(x, &mut page, csr::HIP, 0x44);
    put_csr(x, &mut page, csr::VSIP, 0x55);
    put_csr(x, &mut page, csr::HGEIP, 0x66);
    page
}

// The same with htval and hip dirty.
fn marked(x: Xlen) -> [u8; 12288] {
    let mut page = filled(x, 0);
    dirty::set_dirty(&mut page, csr::index(csr::HTVAL));
    dirty::set_dirty(&mut page, csr::index(csr::HIP));
    page
}

// A hart in the guest, with hstatus as given, line 3 up, which hgeie names, and bit 2 of hvip, all delegated.
fn guest(x: Xlen, features: u64, shmem: Option<u64>, mode: Mode, hstatus: u64) -> Hart {
    let mut hart = Hart {
        lines: 0x08,
        shmem,
        virt: true,
        mode,
        pc: 0x2223,
        sepc: 0x1000,
        stvec: 0x8000_0100,
        sie: true,
        ..Hart::fresh(x, features)
            .write_number(0x600, hstatus)
            .write_number(0x607, 0x08)
            .write_number(0x603, 0x444)
            .write_number(0x645, 0x04)
    };
    hart.x[1] = 0x77;
    hart
}

// One in S whose VGEIN is line 3 and whose GVA and SPVP are clear, with this page address.
fn paged(x: Xlen, shmem: Option<u64>) -> Hart {
    guest(x, 15, shmem, Mode::S, 0x50_3200)
}

// One with these features, its page at the start of memory.
fn ready(x: Xlen, features: u64) -> Hart {
    guest(x, features, Some(BASE), Mode::S, 0x50_3200)
}

// One in U with GVA and SPVP set, SIE clear, and SPIE and SPP set.
fn user(x: Xlen) -> Hart {
    Hart {
        sie: false,
        spie: true,
        spp: true,
        ..guest(x, 15, Some(BASE), Mode::U, 0x50_3340)
    }
}

// A trap on a page with these flags, and what it leaves.
fn case(
    rt: &impl Print,
    name: &str,
    h: Hart,
    flags: u64,
    table: &[u64],
    gva: bool,
) -> io::Result<()> {
    let mut memory = filled(h.xlen, flags);
    let hart = trap(rt, name, h, &mut memory, table, gva)?;
    left(rt, hart, &memory)
}

// A dirty word stays with feature 0, and the next synchronization carries it out.
fn dirty_words(rt: &impl Print, x: Xlen) -> io::Result<()> {
    let mut memory = marked(x);
    let back = trap(
        rt,
        "htval and hip dirty",
        ready(x, 15),
        &mut memory,
        &SLOT,
        true,
    )?;
    left(rt, back, &memory)?;
    let synced = call(
        rt,
        "then sync CSR all-ones",
        back,
        &mut memory,
        fid::SYNC_CSR,
        fid::ALL_ONES,
    )?;
    left(rt, synced, &memory)?;
    let mut bare = marked(x);
    let stored = trap(
        rt,
        "the same without features",
        ready(x, 0),
        &mut bare,
        &SLOT,
        true,
    )?;
    left(rt, stored, &bare)
}

// No swap without a page in memory, the swap, and none without its flag or feature 3.
fn swaps(rt: &impl Print, x: Xlen) -> io::Result<()> {
    let far = Some(BASE + 0x2000);
    case(rt, "no page, flag", paged(x, None), FLAGS, &SLOT, true)?;
    case(
        rt,
        "page not in memory, flag",
        paged(x, far),
        FLAGS,
        &SLOT,
        true,
    )?;
    case(rt, "flag", ready(x, 15), FLAGS, &SLOT, true)?;
    case(
        rt,
        "every flag but bit 0",
        ready(x, 15),
        FLAGS - 1,
        &SLOT,
        true,
    )?;
    case(
        rt,
        "flag, without feature 3",
        ready(x, 7),
        FLAGS,
        &SLOT,
        true,
    )
}

// One whose V, stvec, scause and stval are these.
fn holding(x: Xlen, virt: bool, stvec: u64, scause: u64, stval: u64) -> Hart {
    Hart {
        virt,
        stvec,
        scause,
        stval,
        ..ready(x, 15)
    }
}

// A trap of which only the answer is printed.
fn row(rt: &impl Print, name: &str, h: Hart, table: &[u64]) -> io::Result<()> {
    let mut memory = [0u8; 12288];
    trap(rt, name, h, &mut memory, table, true)?;
    Ok(())
}

// Check 1, then V off; and bit 32, which the words of a record do not have at XLEN 32.
fn refusals(rt: &impl Print, x: Xlen) -> io::Result<()> {
    case(rt, "table of 5 words", ready(x, 15), 0, &[0; 5], true)?;
    case(rt, "V off", holding(x, false, BASE, 0, 0), 0, &SLOT, true)?;
    row(
        rt,
        "V off, table of 5 words",
        holding(x, false, BASE, 0, 0),
        &[0; 5],
    )?;
    row(rt, "stvec bit 0", holding(x, true, BASE + 1, 0, 0), &SLOT)?;
    row(rt, "stvec bit 1", holding(x, true, BASE + 2, 0, 0), &SLOT)?;
    row(
        rt,
        "V off, stvec bit 1",
        holding(x, false, BASE + 2, 0, 0),
        &SLOT,
    )?;
    row(rt, "bit 32 of stvec", holding(x, true, BIT_32, 0, 0), &SLOT)?;
    row(
        rt,
        "bit 32 of scause",
        holding(x, true, BASE, BIT_32, 0),
        &SLOT,
    )?;
    row(
        rt,
        "bit 32 of stval",
        holding(x, true, BASE, 0, BIT_32),
        &SLOT,
    )
}

// A hart whose SRET goes to the guest, to S at 0x4000 with interrupts on.
fn start(x: Xlen) -> Hart {
    Hart {
        sepc: 0x4000,
        stvec: 0x8000_0100,
        spie: true,
        spp: true,
        ..Hart::fresh(x, 15).write_number(0x600, 0x80)
    }
}

// Into the guest, back, and into it again.
fn round(rt: &impl Print, x: Xlen) -> io::Result<()> {
    let mut memory = [0u8; 12288];
    let set = call(rt, "set", start(x), &mut memory, fid::SET, BASE)?;
    word::put_word(x, &mut memory, place::context_at(x, 1), 0x77);
    let inside = call(rt, "SRET", set, &mut memory, fid::SYNC_SRET, 0)?;
    record(rt, inside)?;
    let still = call(rt, "probe in the guest", inside, &mut memory, fid::PROBE, 0)?;
    let back = trap(rt, "trap", still, &mut memory, &SLOT, true)?;
    left(rt, back, &memory)?;
    let probed = call(rt, "probe", back, &mut memory, fid::PROBE, 0)?;
    let kept = trap(rt, "second trap", probed, &mut memory, &SLOT, true)?;
    let again = call(rt, "SRET again", kept, &mut memory, fid::SYNC_SRET, 0)?;
    record(rt, again)
}

// All of them at this width.
pub fn every_case(rt: &impl Print, x: Xlen) -> io::Result<()> {
    case(rt, "from S, GVA 1", ready(x, 15), 0, &SLOT, true)?;
    case(rt, "from U, GVA 0", user(x), 0, &SLOT, false)?;
    dirty_words(rt, x)?;
    swaps(rt, x)?;
    refusals(rt, x)?;
    round(rt, x)
}
