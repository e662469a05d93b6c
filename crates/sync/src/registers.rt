// Register turns on a page. A write is the record's own method, and what that changes is stored in the record; readings are stored from the
// record. The table has no part in them: the contracts hold whatever it is. A run is allowed some number of steps: None says that a step was
// left, Some how many more were allowed.
ghost use Rattle.std.specs.Prelude.{◌≡◌, List, [], ◌∷◌, ℕ, ◌+◌, ◌*◌, ◌^◌, ◌<◌, ◌≤◌, take};
ghost use Rattle.text.specs.Buffer.{Put};
ghost use Rattle.csr.specs.Csrs.{csr_count, at_turn, followers};
ghost use Rattle.hart.specs.Registers.{read};
ghost use Rattle.hart.specs.Dropped.{report_words};
ghost use Rattle.page.specs.Registers.{IsPage, index, put_csr};
ghost use Rattle.world.specs.State.{state_from};
ghost use Rattle.turns.specs.Steps.{Write, Clear, Store, clean_stores, csr_steps, steps, Made};
ghost use Rattle.turns.specs.Reports.{reports};
ghost use Rattle.sync.specs.Turns.{dirty_at_turn, marks_from};
ghost use Rattle.sync.specs.Progress.{left_of, stopped_in};
ghost use Rattle.sync.specs.Inner.{follower_steps};

use crate::reports;
use hart::record::Hart;
use layout::dirty;
use page::registers as words;
use text::Buffer;

// The record after some steps, and how many more were allowed (None if a step was left).
#[derive(Clone, Copy)]
pub struct Turned {
    pub hart: Hart,
    pub left: Option<u64>,
}

// Stores the reading of the register at turn t, whose index is i, in its word. Inlined, so that the record need not stand in memory for it.
#[inline(always)]
pub fn store(h: &Hart, page: &mut [u8], t: usize, i: usize)
    requires { (i ≡ index (at_turn t)) × (IsPage h.now.xlen page.old) }
    ensures { page.new ≡ put_csr h.now.xlen (at_turn t) (read (at_turn t) h.now) page.old }
{
    words::put_csr(h.xlen, page, i, h.read(t));
}

// (C) of the register at turn t, whose index is i, or its store as a follower.
fn store_own(h: &Hart, page: &mut [u8], t: usize, i: usize, limit: u64) -> Option<u64>
    requires { (i ≡ index (at_turn t)) × (IsPage h.now.xlen page.old) }
    ensures { (table : List ℕ) → Made h.now.xlen (Store (at_turn t) ∷ []) (state_from h.now page.old table) limit
        (state_from h.now page.new table) (left_of result) (stopped_in result) }
{
    let left = limit.checked_sub(1)?;
    store(h, page, t, i);
    Some(left)
}

// One store of (D): the follower's reading, if there is a follower and its bit is clear.
fn store_follower(h: &Hart, page: &mut [u8], follower: Option<usize>, limit: u64) -> Option<u64>
    requires { IsPage h.now.xlen page.old }
    ensures { (table : List ℕ) → Made h.now.xlen (follower_steps follower page.old) (state_from h.now page.old table) limit
        (state_from h.now page.new table) (left_of result) (stopped_in result) }
{
    let Some(t) = follower else {
        return Some(limit);
    };
    let i = csr::index(t);
    if dirty::is_dirty(page, i) {
        return Some(limit);
    }
    store_own(h, page, t, i, limit)
}

// (C) and (D) of the register at turn t, whose index is i.
fn store_words(h: &Hart, page: &mut [u8], t: usize, i: usize, limit: u64) -> Option<u64>
    requires { (i ≡ index (at_turn t)) × (IsPage h.now.xlen page.old) }
    ensures { (table : List ℕ) → Made h.now.xlen (Store (at_turn t) ∷ clean_stores (followers (at_turn t)) page.old)
        (state_from h.now page.old table) limit
        (state_from h.now page.new table) (left_of result) (stopped_in result) }
{
    let left = store_own(h, page, t, i, limit)?;
    // Registers after vsip have no followers.
    if t > csr::VSIP {
        return Some(left);
    }
    let left = store_follower(h, page, csr::first_follower(t), left)?;
    store_follower(h, page, csr::second_follower(t), left)
}

// (A) and (B) of the register at turn t, whose index is i. What its write says is put into `told`.
fn write_dirty(
    hart: &mut Hart,
    page: &mut [u8],
    t: usize,
    i: usize,
    limit: u64,
    told: &mut Buffer<u64>,
) -> Option<u64>
    requires { (i ≡ index (at_turn t)) × (IsPage hart.old.xlen page.old) × (told.old.at + 2 < 2 ^ 64) }
    ensures made { (table : List ℕ) → Made hart.old.xlen (Write (at_turn t) ∷ Clear (at_turn t) ∷ []) (state_from hart.old page.old table) limit
        (state_from hart.new page.new table) (left_of result) (stopped_in result) }
    ensures width { hart.new.xlen ≡ hart.old.xlen }
    ensures said { (table : List ℕ) → Put told.old (report_words (reports hart.old.xlen
        (take limit (Write (at_turn t) ∷ Clear (at_turn t) ∷ [])) (state_from hart.old page.old table))) told.new }
    ensures few { told.new.at ≤ told.old.at + 2 }
{
    let left = limit.checked_sub(1)?;
    let word = words::csr_word(hart.xlen, page, i);
    let new = hart.change(t, word);
    let place = new.place;
    hart.csrs[place] = new.value;
    let bits = word ^ hart.read(t);
    reports::put(told, csr::number(t), bits);
    let left = left.checked_sub(1)?;
    dirty::clear_dirty(page, i);
    Some(left)
}

// The turn of the register at turn t: (A) and (B) if it is dirty, then (C) and (D).
fn turn(
    hart: &mut Hart,
    page: &mut [u8],
    t: usize,
    limit: u64,
    told: &mut Buffer<u64>,
) -> Option<u64>
    requires { (IsPage hart.old.xlen page.old) × (told.old.at + 2 < 2 ^ 64) }
    ensures made { (table : List ℕ) → Made hart.old.xlen (csr_steps (at_turn t) page.old) (state_from hart.old page.old table) limit
        (state_from hart.new page.new table) (left_of result) (stopped_in result) }
    ensures width { hart.new.xlen ≡ hart.old.xlen }
    ensures said { (table : List ℕ) → Put told.old (report_words (reports hart.old.xlen
        (take limit (csr_steps (at_turn t) page.old)) (state_from hart.old page.old table))) told.new }
    ensures few { told.new.at ≤ told.old.at + 2 }
{
    let i = csr::index(t);
    let left = if dirty::is_dirty(page, i) {
        write_dirty(hart, page, t, i, limit, told)?
    } else {
        limit
    };
    store_words(hart, page, t, i, left)
}

// The `count` turns from turn `first` on, those of registers that the width has: (A) and (B) of each that is dirty, (C) and (D) of all. What
// the writes say is put into `told`.
pub fn turns(
    h: Hart,
    page: &mut [u8],
    first: usize,
    count: usize,
    limit: u64,
    told: &mut Buffer<u64>,
) -> Turned
    requires { (first + count ≤ csr_count) × (IsPage h.xlen page.old) × (told.old.at + 2 * count < 2 ^ 64) }
    ensures { ((table : List ℕ) → Made h.xlen (steps h.xlen (marks_from (dirty_at_turn h.xlen) first count) (state_from h page.old table))
        (state_from h page.old table) limit (state_from result.hart page.new table) (left_of result.left) (stopped_in result.left))
        × ((table : List ℕ) → Put told.old (report_words (reports h.xlen
        (take limit (steps h.xlen (marks_from (dirty_at_turn h.xlen) first count) (state_from h page.old table))) (state_from h page.old table)))
        told.new) }
{
    let had = csr::turns_had(h.xlen);
    let mut hart = h;
    let mut left = limit;
    for t in first..first + count {
        if (had >> t) % 2 == 1 {
            let Some(more) = turn(&mut hart, page, t, left, told) else {
                return Turned { hart, left: None };
            };
            left = more;
        }
    }
    Turned {
        hart,
        left: Some(left),
    }
}
