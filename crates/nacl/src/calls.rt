// The dispatcher of the five calls.
ghost use Rattle.std.specs.Prelude.{◌≡◌, true, false, List, ℕ, ◌+◌, ◌*◌, ◌/◌, ◌^◌, ◌<◌, ◌≤◌, length};
ghost use Rattle.hart.specs.Record.{with_shmem};
ghost use Rattle.text.specs.Buffer.{Wrote, Put};
ghost use Rattle.hart.specs.Dropped.{report_words, counted};
ghost use Rattle.layout.specs.Width.{bytes};
ghost use Rattle.layout.specs.Geometry.{page_size};
ghost use Rattle.csr.specs.Csrs.{csr_count};
ghost use Rattle.world.specs.Memory.{part_at};
ghost use Rattle.world.specs.State.{state_from};
ghost use Rattle.world.specs.World.{lent, in_memory, page_there, page_offset};
ghost use Rattle.checks.specs.Checks.{is_drop};
ghost use Rattle.sret.specs.Sret.{sret, sret_reports};
ghost use Rattle.nacl.specs.Calls.{page_set, done, done_reports, call_reports, CallOn, StoppedOn};
ghost use Rattle.nacl.specs.Inner.{OnPage, Servable, CallServed};

use checks::answer::Outcome;
use checks::call::Call;
use checks::{fid, judge};
use hart::record::Hart;
use sret::resume;
use stops::runs;
use sync::blank;
use text::Buffer;

// The page that set names: none for a drop, which writes nothing; else the one at lo, which is blanked.
fn page_named(h: &Hart, base: u64, memory: &mut [u8], lo: u64, hi: u64) -> Option<u64>
    requires { is_drop h.now.xlen lo hi ≡ false → in_memory h.now.xlen base memory.old lo ≡ true }
    ensures { (table : List ℕ) → lent (with_shmem h.now result) base memory.new table ≡ page_set lo hi (lent h.now base memory.old table) }
{
    let x = h.xlen;
    if judge::is_drop(x, lo, hi) {
        return None;
    }
    let at = world::page_offset(x, base, memory, Some(lo));
    let end = at + Hart::page_size(x);
    blank::blank(h, &mut memory[at..end]);
    Some(lo)
}

// SRET on the page in memory. What it says is put into `told`.
fn resume_there(
    h: Hart,
    base: u64,
    memory: &mut [u8],
    table: &mut [u64],
    told: &mut Buffer<u64>,
) -> Hart
    requires { (page_there h.xlen base memory.old h.shmem ≡ true) × (length table.old ≤ 1024) × (told.old.at + 2 * csr_count + 2 < 2 ^ 64) }
    ensures on_page { OnPage h.xlen (sret h.xlen) (page_offset base h.shmem) h memory.old table.old result memory.new table.new }
    ensures puts { Put told.old (report_words (sret_reports h.xlen
        (state_from h (part_at (page_size (bytes h.xlen)) (page_offset base h.shmem) memory.old) table.old))) told.new }
{
    let x = h.xlen;
    let at = world::page_offset(x, base, memory, h.shmem);
    let end = at + Hart::page_size(x);
    resume::resume(h, &mut memory[at..end], table, told)
}

// An accepted probe, set or SRET: the record that it leaves. What it says is put into `told`.
fn serve(
    h: Hart,
    base: u64,
    memory: &mut [u8],
    table: &mut [u64],
    c: Call,
    told: &mut Buffer<u64>,
) -> Hart
    requires { (Servable c.fid c.a0 c.a1 (lent h base memory.old table.old)) × (told.old.at + 2 * csr_count + 2 < 2 ^ 64) }
    ensures table_after { lent result base memory.new table.new ≡ done c.fid c.a0 c.a1 (lent h base memory.old table.old) }
    ensures puts { Put told.old (report_words (done_reports c.fid c.a0 (lent h base memory.old table.old))) told.new }
{
    if c.fid == fid::SYNC_SRET {
        return resume_there(h, base, memory, table, told);
    }
    if c.fid == fid::SET {
        let page = page_named(&h, base, memory, c.a0, c.a1);
        return h.with_shmem(page);
    }
    h
}

// A call with the numbers as the hart's width has them; its reports are still to be counted.
fn called(
    h: Hart,
    base: u64,
    memory: &mut [u8],
    table: &mut [u64],
    c: Call,
    out: &mut [u64],
) -> Outcome
    ensures call_served { CallServed c.eid c.fid c.a0 c.a1 c.a2 (lent h base memory.old table.old) result memory.new table.new }
    ensures wrote { Wrote out.old 0 (report_words (call_reports c.eid c.fid c.a0 c.a1 c.a2 (lent h base memory.old table.old))) out.new result.told }
{
    if (c.fid == fid::SYNC_CSR) | (c.fid == fid::SYNC_FENCE) {
        return runs::whole(h, base, memory, table, c.eid, c.fid, c.a0, out);
    }
    let success = match judge::call(&h, base, memory, table, c) {
        Ok(success) => success,
        Err(refusal) => return Outcome::refused(h, refusal),
    };
    let mut told = Buffer::new(out, 0);
    let hart = serve(h, base, memory, table, c, &mut told);
    Outcome::done(hart, success, told.at)
}

// The outcome with its reports, two words of each, counted in the record.
fn tallied(o: Outcome) -> Outcome
    ensures { (result.answer ≡ o.answer) × (result.hart ≡ counted (o.told / 2) o.hart) × (result.steps ≡ o.steps) × (result.finished ≡ o.finished) × (result.told ≡ o.told) }
{
    Outcome {
        hart: o.hart.counted(o.told / 2),
        ..o
    }
}

// Any call: EID, FID and three arguments, over the record, L1 memory (its bytes, the first at physical address `base`) and the table.
// At XLEN 32 the numbers count by their low 32 bits. What the register writes say of the bits that they dropped goes to the start of `out`, and is
// counted in the record.
// Kept: the record, memory with its base and the table beside one another, here and below: in a struct that holds what is lent each contract would say of each slice that it is still the same one.
pub fn call(
    h: Hart,
    base: u64,
    memory: &mut [u8],
    table: &mut [u64],
    c: Call,
    out: &mut [u64],
) -> Outcome
    ensures { CallOn c.eid c.fid c.a0 c.a1 c.a2 (lent h base memory.old table.old) result memory.new table.new out.old out.new }
{
    let x = h.xlen;
    tallied(called(h, base, memory, table, c.cut(x), out))
}

// The stoppable form of FID 2 and 3: the first `limit` steps of the call, or all if there are fewer. EID, FID and argument count as in `call`.
pub fn stoppable(
    h: Hart,
    base: u64,
    memory: &mut [u8],
    table: &mut [u64],
    eid: u64,
    fid: u64,
    a: u64,
    limit: u64,
    out: &mut [u64],
) -> Outcome
    ensures { StoppedOn limit eid fid a (lent h base memory.old table.old) result memory.new table.new out.old out.new }
{
    let x = h.xlen;
    tallied(runs::stoppable(
        h,
        base,
        memory,
        table,
        fid::cut(x, eid),
        fid::cut(x, fid),
        fid::cut(x, a),
        limit,
        out,
    ))
}
