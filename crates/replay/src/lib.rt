// The replay of a recording, whose bytes come in parts cut anywhere. The state is a struct by value, and the caller lends memory, the table, a buffer
// for the record that is not whole yet, and one for the lines.
#![tactic(auto)]

use hart::record::Hart;

pub mod feed;
pub mod line;
pub mod start;

// A replay at some place of a recording: the hart, the number of the record that comes next, how many of its bytes are there, and whether a bad
// header has ended it.
// Kept: `ended` is no missing value, and the C interface has a word for it.
#[derive(Clone, Copy)]
pub struct Replay {
    pub hart: Hart,
    pub number: u64,
    pub have: usize,
    pub ended: bool,
}

// What a part gives: the state after it, how many of its bytes were taken, and how many bytes of lines were written.
#[derive(Clone, Copy)]
pub struct Taken {
    pub replay: Replay,
    pub taken: usize,
    pub written: usize,
}
