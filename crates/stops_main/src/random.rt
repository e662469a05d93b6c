// Pseudo-random numbers, and states made of them.
ghost use Rattle.std.specs.Prelude.{◌<◌};
ghost use Rattle.layout.specs.Width.{bytes};
ghost use Rattle.layout.specs.Geometry.{entry_count};

use crate::run::State;
use crate::{BASE, put_csr};
use checks::fid;
use hart::record::Hart;
use layout::xlen::Xlen;
use layout::{place, word};

// Pseudo-random numbers (xorshift64): the last one.
#[derive(Clone, Copy)]
pub struct Random(u64);

impl Random {
    // The numbers after this one.
    pub(crate) fn new(seed: u64) -> Random {
        Random(seed)
    }

    // The number that came last.
    pub(crate) fn last(self) -> u64 {
        self.0
    }

    // The next number.
    pub(crate) fn next(&mut self) -> u64 {
        let a = self.0 ^ (self.0 << 13);
        let b = a ^ (a >> 7);
        self.0 = b ^ (b << 17);
        self.0
    }
}

// A random word and dirty bit for every register that the width has.
fn fill_csrs(x: Xlen, memory: &mut [u8; 12288], random: &mut Random) {
    for t in 0..csr::COUNT {
        if csr::has(x, t) {
            let v = random.next();
            put_csr(x, memory, t, v, random.next() % 2 == 1);
        }
    }
}

// What makes some entries unreadable: a Type above 7 or a reserved bit; mostly nothing.
fn fault(high_type: u64, reserved: u64, r: u64) -> u64 {
    match r / 0x1_0000_0000 % 64 {
        0 => high_type,
        1 => reserved,
        _ => 0,
    }
}

// A Config word from random bits: small Order, VMID and ASID.
fn config(x: Xlen, r: u64, is_pending: bool) -> u64 {
    let pending = u64::from(is_pending);
    match x {
        Xlen::X32 => (r & 0x703_0603) | fault(0x800_0000, 0x80_0000, r) | (pending << 31),
        Xlen::X64 => {
            let small = r & 0x703_0000_0003_0003;
            small | fault(0x800_0000_0000_0000, 0x4000_0000, r) | (pending << 63)
        }
    }
}

// Entry e from random bits: small fields, Page_Number and Page_Count; unreadable at times.
fn put_entry(x: Xlen, memory: &mut [u8; 12288], e: usize, r: u64, is_pending: bool)
    requires { e < entry_count (bytes x) }
{
    let at = place::entry_at(x, e);
    let n = x.bytes();
    let word2 = u64::from(r / 0x100_0000_0000 % 64 == 0);
    word::put_word(x, memory, at, config(x, r, is_pending));
    word::put_word(x, memory, at + n, r / 0x10_0000 % 8);
    word::put_word(x, memory, at + 2 * n, word2);
    word::put_word(x, memory, at + 3 * n, r / 0x80_0000 % 8);
}

// Random entries, about one of ten Pending.
fn fill_entries(x: Xlen, memory: &mut [u8; 12288], random: &mut Random) {
    for e in 0..Hart::entry_count(x) {
        let bits = random.next();
        put_entry(x, memory, e, bits, random.next() % 10 == 0);
    }
}

// A table of 64 random slots: half are used, with small VMIDs, ASIDs and page numbers.
fn table(random: &mut Random) -> [u64; 256] {
    let mut table = [0u64; 256];
    for (j, word) in table.iter_mut().enumerate() {
        let mask = if j % 4 == 0 {
            0xC000_0000_0003_0003
        } else {
            15
        };
        *word = random.next() & mask;
    }
    table
}

// Random general registers, but for x0.
fn general(x: Xlen, mut random: Random) -> [u64; 32] {
    let mut words = [0u64; 32];
    for i in 1..32 {
        words[i] = fid::cut(x, random.next());
    }
    words
}

// A hart whose registers were written with random words, with random lines and general registers, and with the page set.
fn hart(xlen: Xlen, mut random: Random) -> Hart {
    let mut h = Hart::fresh(xlen, 15);
    for t in 0..csr::COUNT {
        if csr::has(xlen, t) {
            h = h.write(t, random.next());
        }
    }
    let x = general(xlen, random);
    let lines = random.next();
    Hart {
        lines: lines & 0xFE,
        shmem: Some(BASE),
        pc: fid::cut(xlen, lines),
        x,
        ..h
    }
}

// A random state, of which an entry is Pending at least. That entry and the hart begin again at the number that the table ended with.
pub(crate) fn state(x: Xlen, random: &mut Random) -> State {
    let mut memory = [0u8; 12288];
    fill_csrs(x, &mut memory, random);
    fill_entries(x, &mut memory, random);
    let table = table(random);
    let e = random.last() as usize % Hart::entry_count(x);
    let mut again = *random;
    put_entry(x, &mut memory, e, again.next(), true);
    State {
        hart: hart(x, *random),
        memory,
        table,
    }
}
