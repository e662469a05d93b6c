// The hart record.
ghost use Rattle.std.specs.Prelude.{◌≡◌};
ghost use Rattle.hart.specs.Record.{fresh, mode_of};

use crate::legal;
use layout::xlen::Xlen;

// The privilege mode, S or U.
#[derive(Clone, Copy, Debug, PartialEq, Eq)]
pub enum Mode {
    U,
    S,
}

// The mode that SPP names.
impl From<bool> for Mode {
    ghost from_gives = { λ spp mode. mode ≡ mode_of spp };

    fn from(spp: bool) -> Mode {
        if spp { Mode::S } else { Mode::U }
    }
}

// One hart. `csrs` are its 20 stored registers, `lines` the guest external interrupt lines, `virt` is V, `sie`, `spie` and `spp` are bits of
// sstatus, `stvec`, `scause` and `stval` are what a trap back goes to and leaves, `dropped` is how many register writes dropped bits, `x` are the general registers, and `xlen` is its register width:
// last, since copies of the record are then the shortest.
#[derive(Clone, Copy, Debug, PartialEq, Eq)]
pub struct Hart {
    pub csrs: [u64; 20],
    pub lines: u64,
    pub shmem: Option<u64>,
    pub virt: bool,
    pub mode: Mode,
    pub pc: u64,
    pub sepc: u64,
    pub stvec: u64,
    pub scause: u64,
    pub stval: u64,
    pub sie: bool,
    pub spie: bool,
    pub spp: bool,
    pub dropped: u32,
    pub features: u64,
    pub x: [u64; 32],
    pub xlen: Xlen,
}

impl Hart {
    // The bytes of the shared page, and how many fence entries it has, at XLEN 64.
    pub const PAGE_SIZE: usize = 12288;

    pub const ENTRY_COUNT: usize = 60;

    // The same at XLEN 32.
    pub const PAGE_SIZE_32: usize = 8192;

    pub const ENTRY_COUNT_32: usize = 120;

    // The places of the stored registers in `csrs`.
    pub const HSTATUS: usize = 0;

    pub const HGEIE: usize = 1;

    pub const HIDELEG: usize = 2;

    pub const HVIP: usize = 3;

    pub const HIE: usize = 4;

    pub const HEDELEG: usize = 5;

    pub const HTIMEDELTA: usize = 6;

    pub const HCOUNTEREN: usize = 7;

    pub const HENVCFG: usize = 8;

    pub const HTVAL: usize = 9;

    pub const HTINST: usize = 10;

    pub const HGATP: usize = 11;

    pub const VSSTATUS: usize = 12;

    pub const VSTVEC: usize = 13;

    pub const VSSCRATCH: usize = 14;

    pub const VSEPC: usize = 15;

    pub const VSCAUSE: usize = 16;

    pub const VSTVAL: usize = 17;

    pub const VSATP: usize = 18;

    pub const HTIMEDELTAH: usize = 19;

    // A fresh hart of this width with the features in the low four bits of the number given.
    pub fn fresh(x: Xlen, features: u64) -> Hart
        ensures { result ≡ fresh x features }
    {
        let xl = legal::xl_bits(x);
        let mut csrs = [0; 20];
        csrs[Hart::HSTATUS] = xl;
        csrs[Hart::VSSTATUS] = xl;
        Hart {
            xlen: x,
            csrs,
            lines: 0,
            shmem: None,
            virt: false,
            mode: Mode::S,
            pc: 0,
            sepc: 0,
            stvec: 0,
            scause: 0,
            stval: 0,
            sie: false,
            spie: false,
            spp: false,
            dropped: 0,
            features: features % 16,
            x: [0; 32],
        }
    }
}
