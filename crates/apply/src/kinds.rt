// The five kinds of records. A body has the length that its kind wants.
ghost use Rattle.std.specs.Prelude.{◌≡◌, true, [], length};
ghost use Rattle.text.specs.Buffer.{Wrote};
ghost use Rattle.hart.specs.Dropped.{report_words};
ghost use Rattle.world.specs.World.{lent};
ghost use Rattle.recording.specs.Format.{body_word, good_length, is_store};
ghost use Rattle.recording.specs.Kinds.{number};
ghost use Rattle.apply.specs.Effects.{memory_base, plain, call_of, lines_effect, trap_effect, trap_of, effect, Has};

use crate::{Applied, MEMORY_BASE, stores, used};
use checks::answer::Answer;
use checks::call::Call;
use hart::record::Hart;
use hart::trap::Trap;
use nacl::{calls, lines, traps};
use recording::kinds::Kind;

// A call.
fn call(h: Hart, memory: &mut [u8], table: &mut [u64], body: &[u8], out: &mut [u64]) -> Applied
    requires { length body.now ≡ 40 }
    ensures has { Has (call_of body.now (lent h memory_base memory.old table.old)) memory_base result memory.new table.new }
    ensures wrote { Wrote out.old 0 (report_words (call_of body.now (lent h memory_base memory.old table.old)).reports) out.new result.told }
{
    let before = used::used_count(table);
    let numbers = Call {
        eid: recording::word(body, 0),
        fid: recording::word(body, 1),
        a0: recording::word(body, 2),
        a1: recording::word(body, 3),
        a2: recording::word(body, 4),
    };
    let called = calls::call(h, MEMORY_BASE, memory, table, numbers, out);
    Applied {
        answer: called.answer,
        hart: called.hart,
        steps: called.steps,
        removed: before.saturating_sub(used::used_count(table)),
        told: called.told,
    }
}

// An answer with no step, no fence and nothing told.
fn plain(answer: Answer, hart: Hart) -> Applied
    ensures { (result.answer ≡ answer) × (result.hart ≡ hart) × (result.steps ≡ 0) × (result.removed ≡ 0) × (result.told ≡ 0) }
{
    Applied {
        answer,
        hart,
        steps: 0,
        removed: 0,
        told: 0,
    }
}

// A memory write or a slot placed: the same for every hart. Where there is no such place it is -5.
pub fn store(memory: &mut [u8], table: &mut [u64], kind: Kind, body: &[u8]) -> Answer
    requires { (good_length (number kind) (length body.now) ≡ true) × (is_store (number kind) ≡ true) }
    ensures { (h : Hart) → effect (number kind) body.now (lent h memory_base memory.old table.old) ≡ plain result (lent h memory_base memory.new table.new) }
{
    let at = recording::word(body, 0);
    match kind {
        Kind::Write => stores::write(memory, at, &body[8..]),
        _ => stores::place(
            table,
            at,
            recording::word(body, 1),
            recording::word(body, 2),
            recording::word(body, 3),
            recording::word(body, 4),
        ),
    }
}

// A memory write or a slot placed, with the hart as it is.
fn stored(h: Hart, memory: &mut [u8], table: &mut [u64], kind: Kind, body: &[u8]) -> Applied
    requires { (good_length (number kind) (length body.now) ≡ true) × (is_store (number kind) ≡ true) }
    ensures has { Has (effect (number kind) body.now (lent h memory_base memory.old table.old)) memory_base result memory.new table.new }
    ensures told_value { (result.told ≡ 0) × ((effect (number kind) body.now (lent h memory_base memory.old table.old)).reports ≡ []) }
{
    plain(store(memory, table, kind, body), h)
}

// A line change.
fn change_lines(h: Hart, memory: &mut [u8], table: &[u64], body: &[u8]) -> Applied
    requires { length body.now ≡ 8 }
    ensures has { Has (lines_effect (body_word body.now 0) (lent h memory_base memory.old table.now)) memory_base result memory.new table.now }
    ensures told_value { result.told ≡ 0 }
{
    let done = lines::change(h, MEMORY_BASE, memory, table, recording::word(body, 0));
    plain(done.answer, done.hart)
}

// A trap back.
fn trap(h: Hart, memory: &mut [u8], table: &[u64], body: &[u8], out: &mut [u64]) -> Applied
    requires { length body.now ≡ 40 }
    ensures has { Has (trap_effect (trap_of body.now) (lent h memory_base memory.old table.now)) memory_base result memory.new table.now }
    ensures wrote { Wrote out.old 0 (report_words (trap_effect (trap_of body.now) (lent h memory_base memory.old table.now)).reports) out.new result.told }
{
    let t = Trap {
        cause: recording::word(body, 0),
        tval: recording::word(body, 1),
        htval: recording::word(body, 2),
        htinst: recording::word(body, 3),
        gva: recording::word(body, 4) % 2 == 1,
    };
    let done = traps::trap(h, MEMORY_BASE, memory, table, t, out);
    Applied {
        told: done.told,
        ..plain(done.answer, done.hart)
    }
}

// A record of some kind. What its register writes say of the bits that they dropped goes to the start of `out`.
pub fn apply(
    h: Hart,
    memory: &mut [u8],
    table: &mut [u64],
    kind: Kind,
    body: &[u8],
    out: &mut [u64],
) -> Applied
    requires { good_length (number kind) (length body.now) ≡ true }
    ensures has { Has (effect (number kind) body.now (lent h memory_base memory.old table.old)) memory_base result memory.new table.new }
    ensures wrote { Wrote out.old 0 (report_words (effect (number kind) body.now (lent h memory_base memory.old table.old)).reports) out.new result.told }
{
    match kind {
        Kind::Call => call(h, memory, table, body, out),
        Kind::Write | Kind::Slot => stored(h, memory, table, kind, body),
        Kind::Lines => change_lines(h, memory, table, body),
        Kind::Trap => trap(h, memory, table, body, out),
    }
}
