// The registers by their turns: where they are stored, their masks and their readings.
ghost use Rattle.std.specs.Prelude.{◌≡◌};
ghost use Rattle.layout.specs.declared.xlen.Xlen.TheVariants.{X64};
ghost use Rattle.csr.specs.Csrs.{at_turn};
ghost use Rattle.hart.specs.Stored.{place_of};
ghost use Rattle.hart.specs.Registers.{mask_of, read};

use crate::alias;
use crate::record::Hart;
use layout::xlen::Xlen;

// The place in `csrs` of the register at turn t; 20 where it has none of its own.
// Kept: no Option, since those who ask know that there is a place, and would have to open it.
pub fn place(t: usize) -> usize
    ensures { result ≡ place_of (at_turn t) }
{
    match t {
        csr::HSTATUS => Hart::HSTATUS,
        csr::HGEIP => 20,
        csr::HGEIE => Hart::HGEIE,
        csr::HIDELEG => Hart::HIDELEG,
        csr::HVIP => Hart::HVIP,
        csr::HIE => Hart::HIE,
        csr::HIP => 20,
        csr::VSIE => 20,
        csr::VSIP => 20,
        csr::HEDELEG => Hart::HEDELEG,
        csr::HTIMEDELTA => Hart::HTIMEDELTA,
        csr::HTIMEDELTAH => Hart::HTIMEDELTAH,
        csr::HCOUNTEREN => Hart::HCOUNTEREN,
        csr::HENVCFG => Hart::HENVCFG,
        csr::HENVCFGH => 20,
        csr::HTVAL => Hart::HTVAL,
        csr::HTINST => Hart::HTINST,
        csr::HGATP => Hart::HGATP,
        csr::VSSTATUS => Hart::VSSTATUS,
        csr::VSTVEC => Hart::VSTVEC,
        csr::VSSCRATCH => Hart::VSSCRATCH,
        csr::VSEPC => Hart::VSEPC,
        csr::VSCAUSE => Hart::VSCAUSE,
        csr::VSTVAL => Hart::VSTVAL,
        _ => Hart::VSATP,
    }
}

// The bits that the register at turn t takes at XLEN 64, where a mask is its whole rule; 0 where it has another.
fn wide_mask(t: usize) -> u64
    ensures { result ≡ mask_of X64 (at_turn t) }
{
    match t {
        csr::HGEIE => 0xFE,
        csr::HIDELEG => 0x444,
        csr::HVIP => 0x444,
        csr::HIE => 0x1444,
        csr::HEDELEG => 0xB1FF,
        csr::HTIMEDELTA => 0xFFFF_FFFF_FFFF_FFFF,
        csr::HCOUNTEREN => 7,
        csr::HENVCFG => 1,
        csr::HTVAL => 0xFFFF_FFFF_FFFF_FFFF,
        csr::HTINST => 0xFFFF_FFFF_FFFF_FFFF,
        csr::VSSCRATCH => 0xFFFF_FFFF_FFFF_FFFF,
        csr::VSEPC => 0xFFFF_FFFF_FFFF_FFFE,
        csr::VSCAUSE => 0xFFFF_FFFF_FFFF_FFFF,
        csr::VSTVAL => 0xFFFF_FFFF_FFFF_FFFF,
        _ => 0,
    }
}

// The same at either width: XLEN 32 takes the lower 32 of these bits, and htimedeltah's.
pub fn mask(x: Xlen, t: usize) -> u64
    ensures { result ≡ mask_of x (at_turn t) }
{
    match x {
        Xlen::X32 => match t {
            csr::HTIMEDELTAH => 0xFFFF_FFFF,
            _ => wide_mask(t) & 0xFFFF_FFFF,
        },
        Xlen::X64 => wide_mask(t),
    }
}

impl Hart {
    // The reading of the register at turn t.
    // Inlined wherever it is called, as the tests of a record are: a record that is lent to a call has to stand in memory, and each place that
    // hands it on then copies it there.
    #[inline(always)]
    pub fn read(&self, t: usize) -> u64
        ensures { result ≡ read (at_turn t) self.now }
    {
        match t {
            csr::HGEIP => self.lines,
            csr::VSIE => alias::delegated_bits(self.csrs[Hart::HIDELEG], self.csrs[Hart::HIE]),
            csr::HENVCFGH => 0,
            csr::HIP | csr::VSIP => {
                let hip = alias::hip(
                    self.csrs[Hart::HSTATUS],
                    self.csrs[Hart::HGEIE],
                    self.csrs[Hart::HVIP],
                    self.lines,
                );
                if t == csr::HIP {
                    hip
                } else {
                    alias::delegated_bits(self.csrs[Hart::HIDELEG], hip)
                }
            }
            _ => self.csrs[place(t)],
        }
    }
}
