// Writing the registers: a method for each rule, which gives back the whole record, and the choice of the rule by turn, which takes from
// that record the one stored register that the rule changes.
ghost use Rattle.std.specs.Prelude.{◌≡◌, ◌<◌, get_or, set};
ghost use Rattle.std.specs.Int.Bits.{bit_and};
ghost use Rattle.csr.specs.Csrs.{Hstatus, Hgeip, Hip, Vsie, Vsip, Henvcfgh, Hgatp, Vsstatus, Vstvec, Vsatp, at_turn};
ghost use Rattle.hart.specs.Record.{with_csrs};
ghost use Rattle.hart.specs.Stored.{stored_count};
ghost use Rattle.hart.specs.Registers.{write, write_number};

use crate::record::Hart;
use crate::{alias, legal, registers};

// A place among the stored registers, and what a write leaves there.
#[derive(Clone, Copy, Debug, PartialEq, Eq)]
pub struct Change {
    pub place: usize,
    pub value: u64,
}

// Kept: a rule of the project, each register's write is a method with self that gives back the whole hart.
impl Hart {
    // The bits of a mask.
    fn write_masked(mut self, place: usize, mask: u64, v: u64) -> Hart
        requires { place < stored_count }
        ensures { result ≡ with_csrs self (set self.csrs place (bit_and v mask)) }
    {
        self.csrs[place] = v & mask;
        self
    }

    // What hstatus takes.
    pub fn write_hstatus(mut self, v: u64) -> Hart
        ensures { result ≡ write Hstatus v self }
    {
        self.csrs[Hart::HSTATUS] = legal::legal_hstatus(self.xlen, self.csrs[Hart::HSTATUS], v);
        self
    }

    // A write does nothing.
    pub fn write_hgeip(self, v: u64) -> Hart
        ensures { result ≡ write Hgeip v self }
    {
        self
    }

    // Copies bit 2 into hvip bit 2 and does nothing else.
    pub fn write_hip(mut self, v: u64) -> Hart
        ensures { result ≡ write Hip v self }
    {
        self.csrs[Hart::HVIP] = alias::take_bits(4, v, self.csrs[Hart::HVIP]);
        self
    }

    // Moves bits 1, 5, 9 to hie bits 2, 6, 10 where hideleg has that bit.
    pub fn write_vsie(mut self, v: u64) -> Hart
        ensures { result ≡ write Vsie v self }
    {
        let hideleg = self.csrs[Hart::HIDELEG];
        self.csrs[Hart::HIE] = alias::written_behind(0x444, hideleg, self.csrs[Hart::HIE], v);
        self
    }

    // Moves bit 1 to hvip bit 2 if hideleg bit 2 is set.
    pub fn write_vsip(mut self, v: u64) -> Hart
        ensures { result ≡ write Vsip v self }
    {
        let hideleg = self.csrs[Hart::HIDELEG];
        self.csrs[Hart::HVIP] = alias::written_behind(4, hideleg, self.csrs[Hart::HVIP], v);
        self
    }

    // A write does nothing.
    pub fn write_henvcfgh(self, v: u64) -> Hart
        ensures { result ≡ write Henvcfgh v self }
    {
        self
    }

    // What hgatp takes.
    pub fn write_hgatp(mut self, v: u64) -> Hart
        ensures { result ≡ write Hgatp v self }
    {
        self.csrs[Hart::HGATP] = legal::legal_hgatp(self.xlen, self.csrs[Hart::HGATP], v);
        self
    }

    // What vsstatus takes.
    pub fn write_vsstatus(mut self, v: u64) -> Hart
        ensures { result ≡ write Vsstatus v self }
    {
        self.csrs[Hart::VSSTATUS] = legal::legal_vsstatus(self.xlen, v);
        self
    }

    // What vstvec takes.
    pub fn write_vstvec(mut self, v: u64) -> Hart
        ensures { result ≡ write Vstvec v self }
    {
        self.csrs[Hart::VSTVEC] = legal::legal_vstvec(self.xlen, self.csrs[Hart::VSTVEC], v);
        self
    }

    // What vsatp takes.
    pub fn write_vsatp(mut self, v: u64) -> Hart
        ensures { result ≡ write Vsatp v self }
    {
        self.csrs[Hart::VSATP] = legal::legal_vsatp(self.xlen, self.csrs[Hart::VSATP], v);
        self
    }

    // A place of the stored registers, with what it holds.
    fn at(&self, place: usize) -> Change
        requires { place < stored_count }
        ensures { (result.place ≡ place) × (result.value ≡ get_or self.now.csrs place 0) }
    {
        Change {
            place,
            value: self.csrs[place],
        }
    }

    // What a write of v to the register at turn t changes. hgeip's and henvcfgh's change nothing: hstatus keeps what it holds.
    pub fn change(&self, t: usize, v: u64) -> Change
        ensures { (result.place < stored_count) × (with_csrs self.now (set self.now.csrs result.place result.value) ≡ write (at_turn t) v self.now) }
    {
        match t {
            csr::HSTATUS => self.write_hstatus(v).at(Hart::HSTATUS),
            csr::HGEIP => self.write_hgeip(v).at(Hart::HSTATUS),
            csr::HIP => self.write_hip(v).at(Hart::HVIP),
            csr::VSIE => self.write_vsie(v).at(Hart::HIE),
            csr::VSIP => self.write_vsip(v).at(Hart::HVIP),
            csr::HENVCFGH => self.write_henvcfgh(v).at(Hart::HSTATUS),
            csr::HGATP => self.write_hgatp(v).at(Hart::HGATP),
            csr::VSSTATUS => self.write_vsstatus(v).at(Hart::VSSTATUS),
            csr::VSTVEC => self.write_vstvec(v).at(Hart::VSTVEC),
            csr::HGEIE..=csr::HIE | csr::HEDELEG..=csr::HTINST | csr::VSSCRATCH..=csr::VSTVAL => {
                let place = registers::place(t);
                self.write_masked(place, registers::mask(self.xlen, t), v)
                    .at(place)
            }
            _ => self.write_vsatp(v).at(Hart::VSATP),
        }
    }

    // The hart after v is written to the register at turn t.
    pub fn write(mut self, t: usize, v: u64) -> Hart
        ensures { result ≡ write (at_turn t) v self }
    {
        let new = self.change(t, v);
        self.csrs[new.place] = new.value;
        self
    }

    // The write by number: unchanged for a number that the width does not have.
    pub fn write_number(self, n: u64, v: u64) -> Hart
        ensures { result ≡ write_number n v self }
    {
        match csr::of_number(self.xlen, n) {
            Some(t) => self.write(t, v),
            None => self,
        }
    }
}
