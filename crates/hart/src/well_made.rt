// The test of a record: whether it is well made.
ghost use Rattle.std.specs.Prelude.{◌≡◌};
ghost use Rattle.csr.specs.Csrs.{at_turn};
ghost use Rattle.hart.specs.WellMade.{well_made, leaves, csrs_well_made, fits_word, each_fits, other_words, shmem_well_made, lines_well_made};

use crate::record::Hart;
use crate::{legal, registers};
use layout::xlen::Xlen;

// At XLEN 32 bits above 31 are clear.
pub fn fits_word(x: Xlen, v: u64) -> bool
    ensures { result ≡ fits_word x v }
{
    match x {
        Xlen::X32 => v < 0x1_0000_0000,
        Xlen::X64 => true,
    }
}

// The same of each of these words.
pub fn each_fits(x: Xlen, words: &[u64]) -> bool
    ensures { result ≡ each_fits x words.now }
{
    words.iter().all(|&v| fits_word(x, v))
}

// The page address is 4096-aligned and fits.
fn shmem_well_made(x: Xlen, s: Option<u64>) -> bool
    ensures { result ≡ shmem_well_made x s }
{
    match s {
        None => true,
        Some(a) => (a % 4096 == 0) & fits_word(x, a),
    }
}

// Lines only in bits 7:1.
pub fn lines_well_made(lines: u64) -> bool
    ensures { result ≡ lines_well_made lines }
{
    lines & 0xFE == lines
}

// A write of v to the register at turn t leaves exactly v there in a fresh hart.
fn leaves(x: Xlen, t: usize, v: u64) -> bool
    ensures { result ≡ leaves x (at_turn t) v }
{
    match t {
        csr::HSTATUS => legal::legal_hstatus(x, 0, v) == v,
        csr::HGATP => legal::legal_hgatp(x, 0, v) == v,
        csr::VSSTATUS => legal::legal_vsstatus(x, v) == v,
        csr::VSTVEC => legal::legal_vstvec(x, 0, v) == v,
        csr::HGEIP..=csr::VSTVAL => v & registers::mask(x, t) == v,
        _ => legal::legal_vsatp(x, 0, v) == v,
    }
}

impl Hart {
    // Each stored register holds what a write of that very value leaves there in a fresh hart.
    // Kept: a loop would need a table of the twenty turns beside the places, and would choose each register's rule as it runs.
    #[inline(always)]
    fn csrs_well_made(&self) -> bool
        ensures { result ≡ csrs_well_made self.now }
    {
        let x = self.xlen;
        let csrs = &self.csrs;
        leaves(x, csr::HSTATUS, csrs[Hart::HSTATUS])
            & leaves(x, csr::HGEIE, csrs[Hart::HGEIE])
            & leaves(x, csr::HIDELEG, csrs[Hart::HIDELEG])
            & leaves(x, csr::HVIP, csrs[Hart::HVIP])
            & leaves(x, csr::HIE, csrs[Hart::HIE])
            & leaves(x, csr::HEDELEG, csrs[Hart::HEDELEG])
            & leaves(x, csr::HTIMEDELTA, csrs[Hart::HTIMEDELTA])
            & leaves(x, csr::HCOUNTEREN, csrs[Hart::HCOUNTEREN])
            & leaves(x, csr::HENVCFG, csrs[Hart::HENVCFG])
            & leaves(x, csr::HTVAL, csrs[Hart::HTVAL])
            & leaves(x, csr::HTINST, csrs[Hart::HTINST])
            & leaves(x, csr::HGATP, csrs[Hart::HGATP])
            & leaves(x, csr::VSSTATUS, csrs[Hart::VSSTATUS])
            & leaves(x, csr::VSTVEC, csrs[Hart::VSTVEC])
            & leaves(x, csr::VSSCRATCH, csrs[Hart::VSSCRATCH])
            & leaves(x, csr::VSEPC, csrs[Hart::VSEPC])
            & leaves(x, csr::VSCAUSE, csrs[Hart::VSCAUSE])
            & leaves(x, csr::VSTVAL, csrs[Hart::VSTVAL])
            & leaves(x, csr::VSATP, csrs[Hart::VSATP])
            & leaves(x, csr::HTIMEDELTAH, csrs[Hart::HTIMEDELTAH])
    }

    // pc, sepc, stvec, scause, stval and each of the general registers fit a word.
    #[inline(always)]
    fn words_fit(&self) -> bool
        ensures { result ≡ each_fits self.now.xlen (other_words self.now) }
    {
        match self.xlen {
            Xlen::X32 => {
                let words = [self.pc, self.sepc, self.stvec, self.scause, self.stval];
                each_fits(Xlen::X32, &words) & each_fits(Xlen::X32, &self.x)
            }
            Xlen::X64 => true,
        }
    }

    // Every part of the record is well made. The test is inlined wherever it is made, so that the record need not stand in memory for it.
    #[inline(always)]
    pub fn well_made(&self) -> bool
        ensures { result ≡ well_made self.now }
    {
        self.csrs_well_made()
            && lines_well_made(self.lines)
                & (self.sepc % 2 == 0)
                & (self.stvec % 4 == 0)
                & shmem_well_made(self.xlen, self.shmem)
                & (self.x[0] == 0)
                & (self.features < 16)
                & self.words_fit()
    }
}
