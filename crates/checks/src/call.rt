// The numbers that a call is made with.
ghost use Rattle.std.specs.Prelude.{◌≡◌};
ghost use Rattle.checks.specs.Checks.{cut};

use crate::fid;
use layout::xlen::Xlen;

// EID, FID and three arguments.
#[derive(Clone, Copy, Debug, PartialEq, Eq)]
pub struct Call {
    pub eid: u64,
    pub fid: u64,
    pub a0: u64,
    pub a1: u64,
    pub a2: u64,
}

impl Call {
    // What of them a hart of this width can pass: at XLEN 32 the low 32 bits of each.
    pub fn cut(self, x: Xlen) -> Call
        ensures { result ≡ record { eid = cut x self.eid; fid = cut x self.fid; a0 = cut x self.a0; a1 = cut x self.a1; a2 = cut x self.a2 } }
    {
        Call {
            eid: fid::cut(x, self.eid),
            fid: fid::cut(x, self.fid),
            a0: fid::cut(x, self.a0),
            a1: fid::cut(x, self.a1),
            a2: fid::cut(x, self.a2),
        }
    }
}
