// Runs of a call on a state, and what they leave.
use crate::BASE;
use checks::answer::Answer;
use checks::fid;
use hart::record::Hart;
use stops::runs;

// A hart record, L1 memory and a table of 64 slots.
#[derive(Clone, Copy, PartialEq)]
pub struct State {
    pub hart: Hart,
    pub memory: [u8; 12288],
    pub table: [u64; 256],
}

// A call of FID `fid` with parameter `a`.
#[derive(Clone, Copy)]
pub struct Call {
    pub fid: u64,
    pub a: u64,
}

// What a run leaves, and its answer.
#[derive(Clone, Copy, PartialEq)]
pub struct Left {
    pub state: State,
    pub answer: Answer,
}

impl Call {
    // The whole call. What its writes say is left out.
    pub(crate) fn whole(self, mut s: State) -> Left {
        let mut said = [0u64; 52];
        let done = runs::whole(
            s.hart,
            BASE,
            &mut s.memory,
            &mut s.table,
            fid::EID,
            self.fid,
            self.a,
            &mut said,
        );
        s.hart = done.hart;
        Left {
            state: s,
            answer: done.answer,
        }
    }

    // The same of its first steps: what they leave, and how many there were.
    pub(crate) fn stopped(self, mut s: State, limit: u64) -> (State, u64) {
        let mut said = [0u64; 52];
        let done = runs::stoppable(
            s.hart,
            BASE,
            &mut s.memory,
            &mut s.table,
            fid::EID,
            self.fid,
            self.a,
            limit,
            &mut said,
        );
        s.hart = done.hart;
        (s, done.steps)
    }

    // The call after each of the stops.
    pub(crate) fn stopped_then_whole(self, mut s: State, stops: &[u64]) -> Left {
        let done = runs::stopped_then_whole(
            s.hart,
            BASE,
            &mut s.memory,
            &mut s.table,
            fid::EID,
            self.fid,
            self.a,
            stops,
        );
        s.hart = done.hart;
        Left {
            state: s,
            answer: done.answer,
        }
    }
}
