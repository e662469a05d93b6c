// The calls for C and Rust programs to link. A record crosses as a block of words, an answer as a code and a block of five; what register writes
// say of the bits that they dropped goes to the start of `reports`, of each the CSR and the bits.
#![tactic(auto)]

ghost use Rattle.std.specs.Prelude.{◌≡◌};
ghost use Rattle.lister.specs.Listing.{Listed};
ghost use Rattle.block.specs.Block.{fresh_code, fresh_block};
ghost use Rattle.abi.specs.Crossings.{lent_block, CallCrosses, StopCrosses, LineCrosses, trap_of, TrapCrosses};

use checks::call::Call;
use hart::record::Hart;
use hart::trap::Trap;
use layout::xlen::Xlen;
use nacl::{calls, lines, traps};

mod answers;
pub mod claims;
pub mod requests;

// Makes the block that of a fresh hart of this width, 32 or 64. 0, or -1 for a block of another length or another width: the block is then left
// alone.
// Kept: a number for refused, here and in the requests: the C interface.
#[unsafe(no_mangle)]
pub extern "C" fn nacl_fresh(hart: &mut [u64], xlen: u64, features: u64) -> i64
    ensures { (result ≡ fresh_code xlen hart.old) × (hart.new ≡ fresh_block xlen features hart.old) }
{
    let Ok(x) = Xlen::try_from(xlen) else {
        return -1;
    };
    if hart.len() != block::LENGTH {
        return -1;
    }
    block::store(hart, Hart::fresh(x, features));
    0
}

// Any call. At XLEN 32 EID, FID and the arguments count by their low 32 bits.
// Kept: decoding, storing and telling stand in each of the four entries; one function that stores and tells for all took 1,101 instructions for a probe in place of 777.
#[unsafe(no_mangle)]
pub extern "C" fn nacl_call(
    hart: &mut [u64],
    base: u64,
    memory: &mut [u8],
    table: &mut [u64],
    eid: u64,
    fid: u64,
    a0: u64,
    a1: u64,
    a2: u64,
    answer: &mut [u64],
    reports: &mut [u64],
) -> i64
    ensures { CallCrosses eid fid a0 a1 a2 (lent_block hart.old base memory.old table.old)
        answer.old reports.old result (lent_block hart.new base memory.new table.new) answer.new reports.new }
{
    if !block::is_well_formed(hart) {
        return answers::refuse(answer);
    }
    let numbers = Call {
        eid,
        fid,
        a0,
        a1,
        a2,
    };
    let done = calls::call(block::decode(hart), base, memory, table, numbers, reports);
    block::store(hart, done.hart);
    answers::tell(answer, done.answer, 0, false, done.told)
}

// The stoppable form of FID 2 and 3: the first `limit` steps of the call, or all if there are fewer. At XLEN 32 EID, FID and the argument count by
// their low 32 bits, and `limit` as it is.
#[unsafe(no_mangle)]
pub extern "C" fn nacl_sync_stoppable(
    hart: &mut [u64],
    base: u64,
    memory: &mut [u8],
    table: &mut [u64],
    eid: u64,
    fid: u64,
    a0: u64,
    limit: u64,
    answer: &mut [u64],
    reports: &mut [u64],
) -> i64
    ensures { StopCrosses limit eid fid a0 (lent_block hart.old base memory.old table.old)
        answer.old reports.old result (lent_block hart.new base memory.new table.new) answer.new reports.new }
{
    if !block::is_well_formed(hart) {
        return answers::refuse(answer);
    }
    let done = calls::stoppable(
        block::decode(hart),
        base,
        memory,
        table,
        eid,
        fid,
        a0,
        limit,
        reports,
    );
    block::store(hart, done.hart);
    answers::tell(answer, done.answer, done.steps, done.finished, done.told)
}

// A line change.
#[unsafe(no_mangle)]
pub extern "C" fn nacl_line_change(
    hart: &mut [u64],
    base: u64,
    memory: &mut [u8],
    table: &[u64],
    lines: u64,
    answer: &mut [u64],
) -> i64
    ensures { LineCrosses lines (lent_block hart.old base memory.old table.now)
        answer.old result (lent_block hart.new base memory.new table.now) answer.new }
{
    if !block::is_well_formed(hart) {
        return answers::refuse(answer);
    }
    let done = lines::change(block::decode(hart), base, memory, table, lines);
    block::store(hart, done.hart);
    answers::tell(answer, done.answer, 0, false, done.told)
}

// A trap back from the guest. GVA is bit 0 of its word, and the rest of it is ignored. At XLEN 32 the other four words count by their low 32 bits.
#[unsafe(no_mangle)]
pub extern "C" fn nacl_trap(
    hart: &mut [u64],
    base: u64,
    memory: &mut [u8],
    table: &[u64],
    cause: u64,
    tval: u64,
    htval: u64,
    htinst: u64,
    gva: u64,
    answer: &mut [u64],
    reports: &mut [u64],
) -> i64
    ensures { TrapCrosses (trap_of cause tval htval htinst gva) (lent_block hart.old base memory.old table.now)
        answer.old reports.old result (lent_block hart.new base memory.new table.now) answer.new reports.new }
{
    if !block::is_well_formed(hart) {
        return answers::refuse(answer);
    }
    let t = Trap {
        cause,
        tval,
        htval,
        htinst,
        gva: gva % 2 == 1,
    };
    let done = traps::trap(block::decode(hart), base, memory, table, t, reports);
    block::store(hart, done.hart);
    answers::tell(answer, done.answer, 0, false, done.told)
}

// Writes the listing of a page, whose length tells its width, to the start of `out`, as much of it as has room there, and says how long it is.
#[unsafe(no_mangle)]
pub extern "C" fn nacl_list(image: &[u8], out: &mut [u8]) -> usize
    ensures { Listed image.now out.old out.new result }
{
    lister::list(image, out)
}
