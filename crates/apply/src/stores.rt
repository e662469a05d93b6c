// What a recording writes by itself: bytes in memory, a slot in the table. Where there is no such place the answer is -5.
ghost use Rattle.std.specs.Prelude.{◌≡◌, cond, ◌+◌, leb, ltb, length};
ghost use Rattle.fence.specs.Slots.{slot_count};
ghost use Rattle.world.specs.Memory.{with_part};
ghost use Rattle.apply.specs.Effects.{said, with_slot};

use checks::answer::{Answer, Refusal, Success};
use recording::bytes;

// Writes bytes at an offset of memory, unless they would go past its end.
#[tactic(auto, unfolding(world::specs::Memory::with_part))]
pub fn write(memory: &mut [u8], at: u64, bytes: &[u8]) -> Answer
    ensures { let fits = leb (at + length bytes.now) (length memory.old) in
        (result ≡ said fits) × (memory.new ≡ cond fits (with_part (length bytes.now) at bytes.now memory.old) memory.old) }
{
    let first = at as usize;
    let end = first
        .checked_add(bytes.len())
        .ok_or(Refusal::InvalidAddress)?;
    if end > memory.len() {
        return Err(Refusal::InvalidAddress);
    }
    bytes::copy(&mut memory[first..end], bytes);
    Ok(Success::Value(0))
}

// Stores four words in slot i, if there is one.
#[tactic(auto, unfolding(crate::specs::Effects::with_slot))]
pub fn place(table: &mut [u64], i: u64, a: u64, b: u64, c: u64, d: u64) -> Answer
    ensures { let there = ltb i (slot_count table.old) in
        (result ≡ said there) × (table.new ≡ cond there (with_slot i a b c d table.old) table.old) }
{
    if (table.len() / 4) as u64 <= i {
        return Err(Refusal::InvalidAddress);
    }
    let at = 4 * i as usize;
    table[at] = a;
    table[at + 1] = b;
    table[at + 2] = c;
    table[at + 3] = d;
    Ok(Success::Value(0))
}
