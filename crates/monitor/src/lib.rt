// The monitor's outermost entries: a call, a line change and a trap back, on a hart record that is lent and changed in place.
// Each is thin: it copies the record out of the borrow, calls the function of `nacl` that takes a record by value, and stores the record
// of the outcome. The answer, what is left and what is said are those of `nacl`'s contracts, at the lent record, so that what `claims` says of
// refusals and of bytes holds here too.
#![tactic(auto)]

ghost use Rattle.world.specs.World.{lent};
ghost use Rattle.monitor.specs.Entries.{CalledOn, LinesChanged, TrappedOn};

use checks::answer::Answer;
use checks::call::Call;
use hart::record::Hart;
use hart::trap::Trap;
use nacl::{calls, lines, traps};

// The answer, and how many words the register writes said of the bits that they dropped; the lent buffer has those that it has room for.
#[derive(Clone, Copy, Debug, PartialEq, Eq)]
pub struct Told {
    pub answer: Answer,
    pub told: usize,
}

// Any call: EID, FID and three arguments, over the record, L1 memory (its bytes, the first at physical address `base`) and the table.
// At XLEN 32 the numbers count by their low 32 bits. What the register writes say goes to the start of `out`.
// Kept: a call, a line change and a trap by themselves: each is a thin function on the record that is lent (a rule of the project).
pub fn call(
    h: &mut Hart,
    base: u64,
    memory: &mut [u8],
    table: &mut [u64],
    c: Call,
    out: &mut [u64],
) -> Told
    ensures { CalledOn c.eid c.fid c.a0 c.a1 c.a2 (lent h.old base memory.old table.old) out.old
        result (lent h.new base memory.new table.new) out.new }
{
    let old = *h;
    let outcome = calls::call(old, base, memory, table, c, out);
    *h = outcome.hart;
    Told {
        answer: outcome.answer,
        told: outcome.told,
    }
}

// A line change from the platform: the guest external interrupt lines are now `lines`.
pub fn change_lines(h: &mut Hart, base: u64, memory: &mut [u8], table: &[u64], lines: u64) -> Answer
    ensures { LinesChanged lines (lent h.old base memory.old table.now)
        result (lent h.new base memory.new table.now) }
{
    let old = *h;
    let outcome = lines::change(old, base, memory, table, lines);
    *h = outcome.hart;
    outcome.answer
}

// A trap back from the guest: V goes off, and the hart goes on in S where stvec says. At XLEN 32 the trap's words count by their low 32 bits.
// What the swap says goes to the start of `out`.
pub fn trap(
    h: &mut Hart,
    base: u64,
    memory: &mut [u8],
    table: &[u64],
    t: Trap,
    out: &mut [u64],
) -> Told
    ensures { TrappedOn t (lent h.old base memory.old table.now) out.old
        result (lent h.new base memory.new table.now) out.new }
{
    let old = *h;
    let outcome = traps::trap(old, base, memory, table, t, out);
    *h = outcome.hart;
    Told {
        answer: outcome.answer,
        told: outcome.told,
    }
}
