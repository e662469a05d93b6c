// Demand 3 of the scope paper, run at both register widths: on pseudo-random states a synchronization call that is stopped after any
// number of steps, and then made whole, leaves what the whole call alone leaves. Sample T9, and a single sync whose follower is clean,
// stand before.
#![tactic(auto)]

use checks::fid;
use hart::record::Hart;
use layout::xlen::Xlen;
use layout::{dirty, place, word};
use std::io;

mod random;
mod run;

use random::Random;
use run::{Call, State};

// Where L1 memory begins, and the page in it.
pub const BASE: u64 = 0x8000_0000;

// How many states are tried for each kind of call.
const STATES: u64 = 100;

// How many runs were compared, and how many differed.
#[derive(Drop)]
struct Tally {
    runs: u64,
    differ: u64,
}

impl Tally {
    // Counts a run.
    fn count(&mut self, is_same: bool) {
        self.runs = self.runs.wrapping_add(1);
        self.differ = self.differ.wrapping_add(u64::from(!is_same));
    }
}

// Stores the word of the register at turn t, and marks it dirty or leaves it clean.
fn put_csr(x: Xlen, memory: &mut [u8; 12288], t: usize, v: u64, is_dirty: bool) {
    let i = csr::index(t);
    word::put_word(x, memory, place::csr_at(x, i), v);
    if is_dirty {
        dirty::set_dirty(memory, i);
    }
}

// The word of the register at turn t.
fn csr_word(x: Xlen, memory: &[u8; 12288], t: usize) -> u64 {
    word::word_at(x, memory, place::csr_at(x, csr::index(t)))
}

// Every stop from 0 to the number of steps, and one random list of stops, each followed by the whole call, against the whole call.
fn every_stop(c: Call, s: State, random: &mut Random, tally: &mut Tally) {
    let want = c.whole(s);
    let (a, b, d) = (random.next(), random.next(), random.next());
    let listed = c.stopped_then_whole(s, &[a % 16, b % 32, d % 4, d / 4 % 16]);
    tally.count(listed == want);
    let (_, last) = c.stopped(s, 1_000_000);
    for n in 0..=last {
        let (stopped, steps) = c.stopped(s, n);
        tally.count(steps == n && c.whole(stopped) == want);
    }
}

// The parameter: everything, or for FID 2 one register that the width has and for FID 3 one entry.
fn parameter(x: Xlen, fid: u64, all: bool, r: u64) -> u64 {
    if all {
        return fid::all_ones(x);
    }
    let (registers, entries) = match x {
        Xlen::X32 => (25, 120),
        Xlen::X64 => (23, 60),
    };
    if fid == fid::SYNC_FENCE {
        return r % entries;
    }
    let k = (r % registers) as usize;
    (0..csr::COUNT)
        .filter(|t| csr::has(x, *t))
        .nth(k)
        .map_or(0, csr::number)
}

// One kind of call on all states, and its line.
fn kind(rt: &impl Print, x: Xlen, name: &str, fid: u64, all: bool) -> io::Result<()> {
    let mut random = Random::new(0x9E37_79B9_7F4A_7C15);
    let mut tally = Tally { runs: 0, differ: 0 };
    for _ in 0..STATES {
        let state = random::state(x, &mut random);
        // The parameter's number is the one that the state's last parts began with.
        let a = parameter(x, fid, all, random.last());
        every_stop(Call { fid, a }, state, &mut random, &mut tally);
    }
    let Tally { runs, differ } = tally;
    println!(rt; "{name} runs {runs} differ {differ}")
}

// hip is dirty with 4, hvip holds 0; FID 2 is called, and a label and the words of hvip and of hip are written.
fn sample(rt: &impl Print, label: &str, hvip_is_dirty: bool, a: u64) -> io::Result<()> {
    let x = Xlen::X64;
    let mut memory = [0u8; 12288];
    put_csr(x, &mut memory, csr::HVIP, 0, hvip_is_dirty);
    put_csr(x, &mut memory, csr::HIP, 4, true);
    let hart = Hart {
        shmem: Some(BASE),
        ..Hart::fresh(x, 15)
    };
    let call = Call {
        fid: fid::SYNC_CSR,
        a,
    };
    let left = call.whole(State {
        hart,
        memory,
        table: [0; 256],
    });
    let hvip = csr_word(x, &left.state.memory, csr::HVIP);
    let hip = csr_word(x, &left.state.memory, csr::HIP);
    println!(rt; "{label} hvip {hvip} hip {hip}")
}

// Every kind of call.
fn kinds(rt: &impl Print, x: Xlen) -> io::Result<()> {
    kind(rt, x, "csr all", fid::SYNC_CSR, true)?;
    kind(rt, x, "csr one", fid::SYNC_CSR, false)?;
    kind(rt, x, "fence all", fid::SYNC_FENCE, true)?;
    kind(rt, x, "fence one", fid::SYNC_FENCE, false)
}

fn main(rt: HostRuntime) -> io::Result<()> {
    sample(&rt, "T9", true, fid::ALL_ONES)?;
    sample(&rt, "hip alone", false, 0x644)?;
    kinds(&rt, Xlen::X64)?;
    println!(rt; "XLEN 32")?;
    kinds(&rt, Xlen::X32)
}
