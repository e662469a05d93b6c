// The records of a recording: their headers, and bytes gathered until a record is whole.
#![tactic(auto)]

ghost use Rattle.std.specs.Prelude.{◌≡◌, true, [], ◌∷◌, ◌++◌, ◌+◌, ◌*◌, ◌≤◌, ◌<◌, length, take, drop};
ghost use Rattle.recording.specs.Format.{header_length, longest, body_length, kind_of, good_length, good_header, record_length, whole_in, is_store, body_word};
ghost use Rattle.recording.specs.Kinds.{number};
ghost use Rattle.recording.specs.Gathering.{partial, goal_of, count_of};

use kinds::Kind;
use layout::word;
use layout::xlen::Xlen;

pub mod bytes;
pub mod kinds;

// The bytes of a header.
pub const HEADER: usize = 6;

// The bytes of the longest record.
pub const LONGEST: usize = 4110;

// The body length that a header gives.
pub fn body_length(r: &[u8]) -> usize
    requires { header_length ≤ length r.now }
    ensures { result ≡ body_length r.now }
{
    word::word_at(Xlen::X32, r, 0) as usize
}

// The number of the kind that a header gives.
pub fn kind(r: &[u8]) -> u64
    requires { header_length ≤ length r.now }
    ensures { result ≡ kind_of r.now }
{
    u64::from(r[4]) + 256 * u64::from(r[5])
}

// Whether a body of the kind with this number may have this length.
pub fn is_good_length(kind: u64, n: usize) -> bool
    ensures { result ≡ good_length kind n }
{
    match Kind::try_from(kind) {
        Ok(kind) => kind.is_good_length(n),
        Err(_) => false,
    }
}

// Whether a header is good.
pub fn is_good(r: &[u8]) -> bool
    requires { header_length ≤ length r.now }
    ensures { result ≡ good_header r.now }
{
    is_good_length(kind(r), body_length(r))
}

// The kind of a record with a good header.
pub fn good_kind(r: &[u8]) -> Kind
    requires { (header_length ≤ length r.now) × (good_header r.now ≡ true) }
    ensures { number result ≡ kind_of r.now }
{
    Kind::try_from(kind(r)).unwrap()
}

// Whether bytes begin with a whole record.
#[tactic(auto, using(crate::proofs::Good::bounds), unfolding(crate::specs::Format::whole_in))]
pub fn is_whole(r: &[u8]) -> bool
    ensures { result ≡ whole_in r.now }
{
    HEADER <= r.len() && is_good(r) && HEADER + body_length(r) <= r.len()
}

// Whether a record of the kind with this number is a memory write or a slot.
pub fn is_store(kind: u64) -> bool
    ensures { result ≡ is_store kind }
{
    match Kind::try_from(kind) {
        Ok(kind) => kind.is_store(),
        Err(_) => false,
    }
}

// Word i of a body.
pub fn word(body: &[u8], i: usize) -> u64
    requires { 8 * i + 8 ≤ length body.now }
    ensures { result ≡ body_word body.now i }
{
    word::word_at(Xlen::X64, body, 8 * i)
}

// Whether the first `have` bytes are the beginning of a record that is not whole.
#[tactic(auto, using(crate::proofs::Good::bounds), unfolding(crate::specs::Gathering::partial))]
pub fn is_partial(r: &[u8], have: usize) -> bool
    requires { header_length ≤ length r.now }
    ensures { result ≡ partial r.now have }
{
    have < HEADER || (is_good(r) && have < HEADER + body_length(r))
}

// How many bytes are wanted: a header's, and when it is there the record's.
#[tactic(auto, using(crate::proofs::Good::bounds), unfolding(crate::specs::Gathering::partial, crate::specs::Gathering::goal_of))]
pub fn goal(r: &[u8], have: usize) -> usize
    requires { (header_length ≤ length r.now) × (partial r.now have ≡ true) }
    ensures { (result ≡ goal_of r.now have) × (have < result) × (result ≤ longest) }
{
    if have < HEADER {
        HEADER
    } else {
        HEADER + body_length(r)
    }
}

// How many of a part's bytes are taken towards the goal.
#[tactic(auto, unfolding(crate::specs::Gathering::count_of))]
fn count(have: usize, goal: usize, available: usize) -> usize
    requires { have ≤ goal }
    ensures { (result ≡ count_of have goal available) × (have + result ≤ goal) × (result ≤ available) }
{
    available.min(goal - have)
}

// Puts bytes of the part behind the first `have` until there are `goal` or the part ends, and answers how many.
#[tactic(auto, using(crate::proofs::Gathered::gathered, crate::proofs::Gathered::stayed))]
pub fn gather(r: &mut [u8], have: usize, goal: usize, part: &[u8]) -> usize
    requires { (have ≤ goal) × (goal ≤ length r.old) }
    ensures { (result ≡ count_of have goal (length part.now))
        × (take (have + result) r.new ≡ take have r.old ++ take result part.now)
        × (drop (have + result) r.new ≡ drop (have + result) r.old) }
{
    let n = count(have, goal, part.len());
    let end = have + n;
    bytes::copy(&mut r[have..end], &part[..n]);
    n
}
