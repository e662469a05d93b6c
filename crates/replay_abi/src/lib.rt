// The replay of a recording, for C and Rust programs to link. Its state crosses as a block of words.
#![tactic(auto)]

ghost use Rattle.std.specs.Prelude.{◌≡◌, true, [], ◌∷◌, length};
ghost use Rattle.replay_abi.specs.Replays.{state_length, replay_of, replay_block, is_replay, is_lent, can_tell, can_start, can_feed, can_finish};
ghost use Rattle.replay_abi.specs.Replays.{StartCrosses, FeedCrosses, FinishCrosses};

use replay::{Replay, feed, line, start};

// The places of the words after the record's block: the number of the record that comes next, how many bytes of it are in the buffer, and whether a
// bad header has ended the replay.
const NUMBER: usize = block::LENGTH;

const HAVE: usize = NUMBER + 1;

const ENDED: usize = NUMBER + 2;

// How many words a state and the table have, and how many bytes memory.
const STATE: usize = NUMBER + 3;

const TABLE: usize = 256;

const MEMORY: usize = 12288;

// Whether a block holds a state.
fn is_replay(state: &[u64]) -> bool
    ensures { result ≡ is_replay state.now }
{
    if state.len() != STATE {
        return false;
    }
    block::is_well_formed(&state[0..NUMBER]) & (state[ENDED] <= 1)
}

// The state that a block holds.
fn decode(state: &[u64]) -> Replay
    requires { length state.now ≡ state_length }
    ensures { result ≡ replay_of state.now }
{
    Replay {
        hart: block::decode(&state[0..NUMBER]),
        number: state[NUMBER],
        have: state[HAVE] as usize,
        ended: state[ENDED] == 1,
    }
}

// Stores a state in a block, which then holds it.
fn store(state: &mut [u64], s: Replay)
    requires { length state.old ≡ state_length }
    ensures { (state.new ≡ replay_block s) × (replay_of state.new ≡ s) × (is_replay state.new ≡ true) }
{
    block::store(&mut state[0..NUMBER], s.hart);
    state[NUMBER] = s.number;
    state[HAVE] = s.have as u64;
    state[ENDED] = u64::from(s.ended);
}

// Whether memory and the table have their lengths.
fn is_lent(memory: &[u8], table: &[u64]) -> bool
    ensures { result ≡ is_lent memory.now table.now }
{
    (memory.len() == MEMORY) & (table.len() == TABLE)
}

// Whether there is room for any line, and for the two words that are said.
fn can_tell(out: &[u8], said: &[u64]) -> bool
    ensures { result ≡ can_tell out.now said.now }
{
    (line::LONGEST <= out.len()) & (said.len() == 2)
}

// Says how many bytes were taken, and how many were written.
fn tell(said: &mut [u64], taken: usize, written: usize)
    requires { length said.old ≡ 2 }
    ensures { said.new ≡ taken ∷ written ∷ [] }
{
    said.copy_from_slice(&[taken as u64, written as u64]);
}

// Whether a replay can start.
fn can_start(state: &[u64], memory: &[u8], table: &[u64]) -> bool
    ensures { result ≡ can_start state.now memory.now table.now }
{
    (state.len() == STATE) & is_lent(memory, table)
}

// Makes state, memory and table those of the beginning. 0, or -1 for one of another length: nothing changes.
// Kept: a number for refused, here and below: the C interface.
#[unsafe(no_mangle)]
pub extern "C" fn nacl_replay_start(state: &mut [u64], memory: &mut [u8], table: &mut [u64]) -> i64
    ensures { StartCrosses state.old memory.old table.old result
        state.new memory.new table.new }
{
    if !can_start(state, memory, table) {
        return -1;
    }
    store(state, start::start(memory, table));
    0
}

// Whether a part can be fed.
fn can_feed(
    state: &[u64],
    memory: &[u8],
    table: &[u64],
    pending: &[u8],
    out: &[u8],
    said: &[u64],
) -> bool
    ensures { result ≡ can_feed state.now memory.now table.now pending.now out.now said.now }
{
    if !is_replay(state) {
        return false;
    }
    is_lent(memory, table) & can_tell(out, said) & feed::is_ready(decode(state), pending)
}

// Feeds as much of a part as there is room for lines, and says how much was taken and written. 0, or -1 where the state is none, a length is another
// or the buffer is not ready: nothing changes.
#[unsafe(no_mangle)]
pub extern "C" fn nacl_replay_feed(
    state: &mut [u64],
    memory: &mut [u8],
    table: &mut [u64],
    pending: &mut [u8],
    part: &[u8],
    out: &mut [u8],
    said: &mut [u64],
) -> i64
    ensures { FeedCrosses state.old memory.old table.old pending.old part.now out.old said.old result
        state.new memory.new table.new pending.new out.new said.new }
{
    if !can_feed(state, memory, table, pending, out, said) {
        return -1;
    }
    let fed = feed::feed(decode(state), memory, table, pending, part, out);
    store(state, fed.replay);
    tell(said, fed.taken, fed.written);
    0
}

// Whether a replay can be finished.
fn can_finish(state: &[u64], out: &[u8], said: &[u64]) -> bool
    ensures { result ≡ can_finish state.now out.now said.now }
{
    is_replay(state) & can_tell(out, said)
}

// Writes what is to be written when the recording ends, and says how much. 0, or -1 where the state is none or a length is another: nothing changes.
#[unsafe(no_mangle)]
pub extern "C" fn nacl_replay_finish(state: &[u64], out: &mut [u8], said: &mut [u64]) -> i64
    ensures { FinishCrosses state.now out.old said.old result out.new said.new }
{
    if !can_finish(state, out, said) {
        return -1;
    }
    let written = feed::finish(decode(state), out);
    tell(said, 0, written);
    0
}
