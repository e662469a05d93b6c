// The trap back from the guest.
ghost use Rattle.std.specs.Prelude.{◌≡◌, true, List, ℕ, ◌+◌, ◌^◌, ◌<◌};
ghost use Rattle.text.specs.Buffer.{Put};
ghost use Rattle.hart.specs.Dropped.{report_words};
ghost use Rattle.layout.specs.Width.{bytes};
ghost use Rattle.layout.specs.Geometry.{page_size};
ghost use Rattle.world.specs.Memory.{part_at};
ghost use Rattle.world.specs.State.{state_from};
ghost use Rattle.world.specs.World.{lent, page_there, page_offset};
ghost use Rattle.sret.specs.Sret.{swap_reports};
ghost use Rattle.trap.specs.Trap.{trap_stored};
ghost use Rattle.nacl.specs.Traps.{cut_trap, TrapIs, TrapOn};
ghost use Rattle.nacl.specs.Inner.{OnPage};

use checks::answer::{Outcome, Refusal, Success};
use checks::{fid, judge};
use hart::record::Hart;
use hart::trap::Trap;
use layout::xlen::Xlen;
use text::Buffer;

// The swap and the clean words on the page in memory. The table has no part in it: the contract holds whatever it is. What the swap says is put
// into `told`.
fn store_there(h: Hart, base: u64, memory: &mut [u8], told: &mut Buffer<u64>) -> Hart
    requires { (page_there h.xlen base memory.old h.shmem ≡ true) × (told.old.at + 2 < 2 ^ 64) }
    ensures { ((table : List ℕ) → OnPage h.xlen (trap_stored h.xlen) (page_offset base h.shmem) h memory.old table result memory.new table)
        × ((table : List ℕ) → Put told.old (report_words (swap_reports h.xlen
        (state_from h (part_at (page_size (bytes h.xlen)) (page_offset base h.shmem) memory.old) table))) told.new) }
{
    let x = h.xlen;
    let at = world::page_offset(x, base, memory, h.shmem);
    let end = at + Hart::page_size(x);
    trap::store(h, &mut memory[at..end], told)
}

// The trap's words as the width has them.
fn cut(x: Xlen, t: Trap) -> Trap
    ensures { result ≡ cut_trap x t }
{
    Trap {
        cause: fid::cut(x, t.cause),
        tval: fid::cut(x, t.tval),
        htval: fid::cut(x, t.htval),
        htinst: fid::cut(x, t.htinst),
        ..t
    }
}

// A trap with the words as the hart's width has them. Its report is counted where the swap is: elsewhere there is none.
fn trap_cut(
    h: Hart,
    base: u64,
    memory: &mut [u8],
    table: &[u64],
    t: Trap,
    out: &mut [u64],
) -> Outcome
    ensures { TrapIs t (lent h base memory.old table.now) result memory.new out.old out.new }
{
    if !judge::well_made(&h, table) {
        return Outcome::refused(h, Refusal::Failed);
    }
    if !h.virt {
        return Outcome::refused(h, Refusal::NotSupported);
    }
    let changed = h.trapped(t);
    if !world::page_there(changed.xlen, base, memory, changed.shmem) {
        return Outcome::done(changed, Success::Value(0), 0);
    }
    let mut told = Buffer::new(out, 0);
    let stored = store_there(changed, base, memory, &mut told);
    let hart = stored.counted(told.at / 2);
    Outcome::done(hart, Success::Value(0), told.at)
}

// The guest traps back: V goes off, and the hart goes on in S where stvec says; the table is only lent for its length. At XLEN 32 the words of
// the trap count by their low 32 bits. What the swap says goes to the start of `out`, and is counted in the record.
pub fn trap(
    h: Hart,
    base: u64,
    memory: &mut [u8],
    table: &[u64],
    t: Trap,
    out: &mut [u64],
) -> Outcome
    ensures { TrapOn t (lent h base memory.old table.now) result memory.new out.old out.new }
{
    let x = h.xlen;
    trap_cut(h, base, memory, table, cut(x, t), out)
}
