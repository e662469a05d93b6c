// The seven checks, in 01's order, and the answer that they give. Numbers are judged as they are given: `nacl::calls` cuts them to the width.
ghost use Rattle.std.specs.Prelude.{◌≡◌, cond, not, ◌&&◌, ◌||◌, ltb};
ghost use Rattle.csr.specs.Csrs.{lookup};
ghost use Rattle.hart.specs.WellMade.{well_made};
ghost use Rattle.world.specs.World.{lent, page_there};
ghost use Rattle.checks.specs.declared.answer.Refusal.TheVariants.{InvalidAddress, NoShmem};
ghost use Rattle.checks.specs.Fids.{fid_csr};
ghost use Rattle.checks.specs.Codes.{AnswerIs};
ghost use Rattle.checks.specs.Checks.{table_well_made, is_call, is_sync, feature_of, feature_there, is_found, good_csr, good_entry};
ghost use Rattle.checks.specs.Checks.{is_drop, good_set, check5, check6, probed, success, answer_by, call_answer, sync_answer};

use crate::answer::{Answer, Refusal, Success};
use crate::call::Call;
use crate::fid;
use hart::features;
use hart::record::{Hart, Mode};
use layout::xlen::Xlen;

// Check 1, the table: its length is a multiple of 4 and at most 1,024.
fn table_well_made(table: &[u64]) -> bool
    ensures { result ≡ table_well_made table.now }
{
    table.len() % 4 == 0 && table.len() <= 1024
}

// Check 1: the table and the record are well made.
// Inlined, as `judged` is.
#[inline(always)]
pub fn well_made(h: &Hart, table: &[u64]) -> bool
    ensures { result ≡ (table_well_made table.now && well_made h.now) }
{
    table_well_made(table) && h.well_made()
}

// Check 3: the extension, and one of its five calls.
fn is_call(eid: u64, fid: u64) -> bool
    ensures { result ≡ is_call eid fid }
{
    eid == fid::EID && fid <= fid::SYNC_SRET
}

// Check 3 of the stoppable form: the extension, and a call that synchronizes.
fn is_sync(eid: u64, fid: u64) -> bool
    ensures { result ≡ is_sync eid fid }
{
    eid == fid::EID && (fid == fid::SYNC_CSR || fid == fid::SYNC_FENCE)
}

// The feature that FID 2, 3 or 4 needs.
fn feature_of(fid: u64) -> u64
    ensures { result ≡ feature_of fid }
{
    match fid {
        fid::SYNC_CSR => 0,
        fid::SYNC_FENCE => 1,
        _ => 2,
    }
}

// Check 4: the call's feature is present. Probe and set need none.
fn feature_there(features: u64, fid: u64) -> bool
    ensures { result ≡ feature_there features fid }
{
    fid < fid::SYNC_CSR || features::has(features, feature_of(fid))
}

// The number is implemented at this width.
fn is_implemented(x: Xlen, n: u64) -> bool
    ensures { result ≡ is_found (lookup x n) }
{
    csr::of_number(x, n).is_some()
}

// FID 2's parameter: all-ones, or the number of an implemented register.
fn is_good_csr(x: Xlen, n: u64) -> bool
    ensures { result ≡ good_csr x n }
{
    n == fid::all_ones(x) || (n & 0x300 == 0x200 && n < 0x1000 && is_implemented(x, n))
}

// FID 3's parameter: all-ones or the index of an entry.
fn is_good_entry(x: Xlen, e: u64) -> bool
    ensures { result ≡ good_entry x e }
{
    e == fid::all_ones(x) || e < Hart::entry_count(x) as u64
}

// Set drops the page.
pub fn is_drop(x: Xlen, lo: u64, hi: u64) -> bool
    ensures { result ≡ is_drop x lo hi }
{
    let all = fid::all_ones(x);
    lo == all && hi == all
}

// Set's parameters: no flags, and a drop or an aligned address.
fn is_good_set(x: Xlen, lo: u64, hi: u64, flags: u64) -> bool
    ensures { result ≡ good_set x lo hi flags }
{
    flags == 0 && (is_drop(x, lo, hi) || lo % 4096 == 0)
}

// Check 5: the call's parameters are good. Probe and SRET take any.
fn good_parameters(x: Xlen, c: Call) -> bool
    ensures { result ≡ check5 x c.fid c.a0 c.a1 c.a2 }
{
    match c.fid {
        fid::SET => is_good_set(x, c.a0, c.a1, c.a2),
        fid::SYNC_CSR => is_good_csr(x, c.a0),
        fid::SYNC_FENCE => is_good_entry(x, c.a0),
        _ => true,
    }
}

// Check 6: what set names, unless it drops the page, lies wholly in L1 memory.
fn good_address(x: Xlen, base: u64, memory: &[u8], c: Call) -> bool
    ensures { result ≡ check6 x base memory.now c.fid c.a0 c.a1 }
{
    c.fid != fid::SET
        || is_drop(x, c.a0, c.a1)
        || (c.a1 == 0 && world::in_memory(x, base, memory, c.a0))
}

// Check 7: the page that FID 2 to 4 need is set and lies wholly in L1 memory. Probe and set need none.
fn good_page(x: Xlen, base: u64, memory: &[u8], fid: u64, shmem: Option<u64>) -> bool
    ensures { result ≡ (ltb fid fid_csr || page_there x base memory.now shmem) }
{
    fid < fid::SYNC_CSR || world::page_there(x, base, memory, shmem)
}

// Checks 6 and 7, in this order, where they came out as `address` and `page`.
fn in_place(address: bool, page: bool) -> Result<(), Refusal>
    ensures { result ≡ cond (not address) (Err InvalidAddress) (cond (not page) (Err NoShmem) (Ok tt)) }
{
    if !address {
        return Err(Refusal::InvalidAddress); // check 6
    }
    if !page {
        return Err(Refusal::NoShmem); // check 7
    }
    Ok(())
}

// Probe's value: 1 if the feature with the number in a's low 32 bits is present.
fn probe(features: u64, a: u64) -> u64
    ensures { result ≡ probed features a }
{
    u64::from(features::has(features, a % 0x1_0000_0000))
}

// What an accepted call is answered.
fn succeeded(features: u64, fid: u64, a: u64) -> Success
    ensures { Ok result ≡ success features fid a }
{
    match fid {
        fid::PROBE => Success::Value(probe(features, a)),
        fid::SYNC_SRET => Success::Resumed,
        _ => Success::Value(0),
    }
}

// What a call is answered, where check 3 came out as `three`: the first check that fails decides.
// It is inlined, as what it asks of the record is: lent to a call, the record would have to stand in memory (docs/BENCHMARKS.md).
#[inline(always)]
#[tactic(auto, unfolding(crate::specs::Checks::answer_by, crate::specs::Checks::check1, crate::specs::Checks::check2, crate::specs::Checks::check7))]
fn judged(h: &Hart, base: u64, memory: &[u8], table: &[u64], three: bool, c: Call) -> Answer
    ensures { result ≡ answer_by three c.fid c.a0 c.a1 c.a2 (lent h.now base memory.now table.now) }
{
    let x = h.xlen;
    if !well_made(h, table) {
        return Err(Refusal::Failed); // check 1
    }
    if h.virt || h.mode != Mode::S {
        return Err(Refusal::NotSupported); // check 2
    }
    if !three {
        return Err(Refusal::NotSupported); // check 3
    }
    if !feature_there(h.features, c.fid) {
        return Err(Refusal::NotSupported); // check 4
    }
    if !good_parameters(x, c) {
        return Err(Refusal::InvalidParam); // check 5
    }
    let address = good_address(x, base, memory, c);
    let page = good_page(x, base, memory, c.fid, h.shmem);
    in_place(address, page)?; // checks 6 and 7
    Ok(succeeded(h.features, c.fid, c.a0))
}

// What a call is answered.
pub fn call(h: &Hart, base: u64, memory: &[u8], table: &[u64], c: Call) -> Answer
    ensures { AnswerIs result (call_answer c.eid c.fid c.a0 c.a1 c.a2 (lent h.now base memory.now table.now)) }
{
    let three = is_call(c.eid, c.fid);
    judged(h, base, memory, table, three, c)
}

// What the stoppable form is answered: every FID but 2 and 3 is refused at check 3.
// Inlined, as `judged` is.
#[inline(always)]
pub fn sync(h: &Hart, base: u64, memory: &[u8], table: &[u64], eid: u64, fid: u64, a: u64) -> Answer
    ensures { AnswerIs result (sync_answer eid fid a (lent h.now base memory.now table.now)) }
{
    let three = is_sync(eid, fid);
    let c = Call {
        eid,
        fid,
        a0: a,
        a1: 0,
        a2: 0,
    };
    judged(h, base, memory, table, three, c)
}
