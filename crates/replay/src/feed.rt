// A replay fed with parts of a recording.
ghost use Rattle.std.specs.Prelude.{◌≡◌, ℕ, ◌+◌, ◌^◌, ◌<◌, ◌≤◌, true, false, List, length, take};
ghost use Rattle.text.specs.Buffer.{Wrote};
ghost use Rattle.hart.specs.declared.record.Hart.{Hart};
ghost use Rattle.world.specs.World.{lent};
ghost use Rattle.recording.specs.Format.{header_length, longest, good_header, record_length};
ghost use Rattle.apply.specs.Effects.{memory_base};
ghost use Rattle.replay.specs.Replay.{following, through, ending_of};
ghost use Rattle.replay.specs.Code.{ready, longest_line, FedOn, Untouched};
ghost use Rattle.replay.specs.Inner.{Told, Stepped, between, store_ahead};

use crate::{Replay, Taken, line};
use apply::kinds;
use text::Buffer;

// Whether the buffer is long enough for any record, and what is in it the beginning of one.
#[tactic(auto, unfolding(crate::specs::Code::ready))]
pub fn is_ready(s: Replay, pending: &[u8]) -> bool
    ensures { result ≡ ready s pending.now }
{
    recording::LONGEST <= pending.len() && recording::is_partial(pending, s.have)
}

// The header is there: it is good, or it ends the replay.
fn judge(s: Replay, pending: &[u8], out: &mut Buffer<u8>) -> Replay
    requires { (longest ≤ length pending.now) × (out.old.at + longest_line < 2 ^ 64) }
    ensures { (memory table : List ℕ) → Told (through s.number (lent s.hart memory_base memory table) (take header_length pending.now))
        out.old result memory table pending.now out.new }
{
    if recording::is_good(pending) {
        return Replay {
            have: recording::HEADER,
            ended: false,
            ..s
        };
    }
    line::put_bad(out, s.number);
    Replay {
        have: 0,
        ended: true,
        ..s
    }
}

// The record is whole: it is applied.
fn apply(
    s: Replay,
    memory: &mut [u8],
    table: &mut [u64],
    pending: &[u8],
    out: &mut Buffer<u8>,
) -> Replay
    requires { (longest ≤ length pending.now) × (good_header pending.now ≡ true) × (out.old.at + longest_line < 2 ^ 64) }
    ensures { Told (through s.number (lent s.hart memory_base memory.old table.old) (take (record_length pending.now) pending.now))
        out.old result memory.new table.new pending.now out.new }
{
    let kind = recording::good_kind(pending);
    let end = recording::HEADER + recording::body_length(pending);
    let mut words = [0; 52];
    let done = kinds::apply(
        s.hart,
        memory,
        table,
        kind,
        &pending[recording::HEADER..end],
        &mut words,
    );
    line::put_line(
        out,
        s.number,
        u64::from(kind),
        done.answer,
        done.steps,
        done.removed,
        &words[..done.told],
    );
    Replay {
        hart: done.hart,
        number: s.number.wrapping_add(1),
        have: 0,
        ended: false,
    }
}

// Takes bytes until the header is there, or the record, or the part ends; answers the state after them, and how many they are.
fn step(
    s: Replay,
    memory: &mut [u8],
    table: &mut [u64],
    pending: &mut [u8],
    part: &[u8],
    out: &mut Buffer<u8>,
) -> (Replay, usize)
    requires { (ready s pending.old ≡ true) × (s.ended ≡ false) × (0 < length part.now) × (out.old.at + longest_line < 2 ^ 64) }
    ensures { Stepped s memory.old table.old pending.old part.now out.old result.0 result.1
        memory.new table.new pending.new out.new }
{
    let goal = recording::goal(pending, s.have);
    let taken = recording::gather(pending, s.have, goal, part);
    let have = s.have + taken;
    if have < goal {
        return (Replay { have, ..s }, taken);
    }
    if goal == recording::HEADER {
        return (judge(s, pending, out), taken);
    }
    (apply(s, memory, table, pending, out), taken)
}

// Whether a memory write or a slot comes next and is whole in the part.
#[tactic(auto, using(crate::proofs::Ahead::whole_header), unfolding(crate::specs::Inner::store_ahead))]
fn is_store_ahead(have: usize, part: &[u8]) -> bool
    ensures { result ≡ store_ahead have part.now }
{
    have == 0 && recording::is_whole(part) && recording::is_store(recording::kind(part))
}

// Carries it out straight from the part, and answers how much of the part it took. The hart and the buffer have no part in it: the contract holds
// whatever they are.
fn store(
    number: u64,
    memory: &mut [u8],
    table: &mut [u64],
    part: &[u8],
    out: &mut Buffer<u8>,
) -> usize
    requires { (store_ahead 0 part.now ≡ true) × (out.old.at + longest_line < 2 ^ 64) }
    ensures { (h : Hart) (pending : List ℕ) → longest ≤ length pending
        → Stepped (between h number) memory.old table.old pending part.now out.old (between h (following number)) result
        memory.new table.new pending out.new }
{
    let kind = recording::good_kind(part);
    let taken = recording::HEADER + recording::body_length(part);
    let answer = kinds::store(memory, table, kind, &part[recording::HEADER..taken]);
    line::put_line(out, number, u64::from(kind), answer, 0, 0, &[]);
    taken
}

// Takes as much of a part as there is room for lines, and writes the lines. All of it is taken but where less than a longest line's room is left. A
// buffer that is not ready takes nothing.
// Kept: memory, the table, the rest and the lines beside one another, as in the C interface.
pub fn feed(
    s: Replay,
    memory: &mut [u8],
    table: &mut [u64],
    pending: &mut [u8],
    part: &[u8],
    out: &mut [u8],
) -> Taken
    ensures { (ready s pending.old ≡ true
        → FedOn s memory.old table.old pending.old part.now out.old result
        memory.new table.new pending.new out.new)
        × (ready s pending.old ≡ false
        → Untouched s memory.old table.old pending.old out.old result
        memory.new table.new pending.new out.new) }
{
    if !is_ready(s, pending) {
        return Taken {
            replay: s,
            taken: 0,
            written: 0,
        };
    }
    let mut replay = s;
    let mut taken = 0;
    let mut lines = Buffer::new(out, 0);
    // Kept: no index is counted: a record is taken whole or in part, and the loop ends where there is no room for a line.
    while taken < part.len() && !replay.ended && line::LONGEST <= lines.out.len() - lines.at {
        if is_store_ahead(replay.have, &part[taken..]) {
            taken += store(replay.number, memory, table, &part[taken..], &mut lines);
            replay.number = replay.number.wrapping_add(1);
        } else {
            let (after, count) = step(replay, memory, table, pending, &part[taken..], &mut lines);
            replay = after;
            taken += count;
        }
    }
    if replay.ended {
        taken = part.len();
    }
    Taken {
        replay,
        taken,
        written: lines.at,
    }
}

// What is to be written when the recording ends: a rest is a record that was cut. The bytes that have no room are counted all the same.
#[tactic(auto, using(text::proofs::Writing::wrote_nothing), unfolding(crate::specs::Replay::ending_of))]
pub fn finish(s: Replay, out: &mut [u8]) -> usize
    ensures { Wrote out.old 0 (ending_of s.number s.have s.ended) out.new result }
{
    if s.ended || s.have == 0 {
        return 0;
    }
    let mut lines = Buffer::new(out, 0);
    line::put_cut(&mut lines, s.number);
    lines.at
}
