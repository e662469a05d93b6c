// FID 2 and 3 over a record, L1 memory and the table: stoppable, whole, and the whole after any list of stops. EID, FID and argument are judged
// as they are given; `nacl::calls` cuts wider numbers for a hart of XLEN 32.
ghost use Rattle.std.specs.Prelude.{◌≡◌, true, ◌≤◌};
ghost use Rattle.text.specs.Buffer.{Wrote};
ghost use Rattle.hart.specs.Dropped.{report_words};
ghost use Rattle.world.specs.World.{lent};
ghost use Rattle.stops.specs.Sync.{whole_reports, stop_reports};
ghost use Rattle.stops.specs.Outcome.{StoppedIs, WholeIs, EndIs};
ghost use Rattle.stops.specs.Stops.{Restartable};

use crate::steps;
use checks::answer::Outcome;
use checks::{fid, judge};
use hart::record::Hart;
use text::Buffer;

// What the stoppable form does. WHOLE says that `limit` is enough for any call: then all fences go in one pass over the table. Each form has a
// body of its own, so that the whole form pays for no copy of the record.
fn run<const WHOLE: bool>(
    h: Hart,
    base: u64,
    memory: &mut [u8],
    table: &mut [u64],
    eid: u64,
    fid: u64,
    a: u64,
    limit: u64,
    out: &mut [u64],
) -> Outcome
    requires { WHOLE ≡ true → 376 ≤ limit }
    ensures stopped_is { StoppedIs limit eid fid a (lent h base memory.old table.old) result memory.new table.new }
    ensures wrote { Wrote out.old 0 (report_words (stop_reports limit eid fid a (lent h base memory.old table.old))) out.new result.told }
{
    let answer = judge::sync(&h, base, memory, table, eid, fid, a);
    if let Err(refusal) = answer {
        return Outcome::refused(h, refusal);
    }
    let x = h.xlen;
    let at = world::page_offset(x, base, memory, h.shmem);
    if fid == fid::SYNC_CSR {
        let mut told = Buffer::new(out, 0);
        let turned = steps::serve_registers(h, memory, at, a, limit, &mut told);
        return Outcome {
            answer,
            hart: turned.hart,
            steps: limit - turned.left.unwrap_or(0),
            finished: turned.left.is_some(),
            told: told.at,
        };
    }
    let left = steps::serve_fences::<WHOLE>(x, memory, table, at, a, limit);
    Outcome {
        answer,
        hart: h,
        steps: limit - left.unwrap_or(0),
        finished: left.is_some(),
        told: 0,
    }
}

// The stoppable form of FID 2 and 3: the first `limit` steps of the call, or all if there are fewer. What the register writes say goes to the
// start of `out`; the record's count of such writes is left to the caller.
pub fn stoppable(
    h: Hart,
    base: u64,
    memory: &mut [u8],
    table: &mut [u64],
    eid: u64,
    fid: u64,
    a: u64,
    limit: u64,
    out: &mut [u64],
) -> Outcome
    ensures stopped_is { StoppedIs limit eid fid a (lent h base memory.old table.old) result memory.new table.new }
    ensures wrote { Wrote out.old 0 (report_words (stop_reports limit eid fid a (lent h base memory.old table.old))) out.new result.told }
{
    run::<false>(h, base, memory, table, eid, fid, a, limit, out)
}

// The whole form of FID 2 and 3; any other FID is refused at check 3. It is allowed more steps than any call has.
pub fn whole(
    h: Hart,
    base: u64,
    memory: &mut [u8],
    table: &mut [u64],
    eid: u64,
    fid: u64,
    a: u64,
    out: &mut [u64],
) -> Outcome
    ensures whole_is { WholeIs eid fid a (lent h base memory.old table.old) result memory.new table.new }
    ensures wrote { Wrote out.old 0 (report_words (whole_reports eid fid a (lent h base memory.old table.old))) out.new result.told }
{
    run::<true>(h, base, memory, table, eid, fid, a, u64::MAX, out)
}

// The stoppable form once for each number of `stops`, then the whole form. It promises demand 3 of this list, and that answer, record, memory
// and table end as the whole form's alone: in these a body that ignores the stops would not differ, by that very claim. What ties the claim
// to the code is that the contracts of `stoppable` and `whole` equal the definitions that it speaks of.
pub fn stopped_then_whole(
    h: Hart,
    base: u64,
    memory: &mut [u8],
    table: &mut [u64],
    eid: u64,
    fid: u64,
    a: u64,
    stops: &[u64],
) -> Outcome
    ensures end_is { EndIs stops.now eid fid a (lent h base memory.old table.old)
        result memory.new table.new }
    ensures restartable { Restartable stops.now eid fid a (lent h base memory.old table.old) }
{
    // What the writes say is left out.
    let mut unread = [0u64; 1];
    let mut hart = h;
    for &limit in stops {
        hart = stoppable(hart, base, memory, table, eid, fid, a, limit, &mut unread).hart;
    }
    whole(hart, base, memory, table, eid, fid, a, &mut unread)
}
