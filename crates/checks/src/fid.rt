// The extension's number, those of its five calls, the parameter that asks for everything, and how wide a number is.
ghost use Rattle.std.specs.Prelude.{◌≡◌, [], ◌∷◌};
ghost use Rattle.layout.specs.declared.xlen.Xlen.TheVariants.{X32, X64};
ghost use Rattle.hart.specs.Bits.{all_ones};
ghost use Rattle.checks.specs.Fids.{eid_nacl, fid_probe, fid_set, fid_csr, fid_fence, fid_sret};
ghost use Rattle.checks.specs.Checks.{cut};

use layout::xlen::Xlen;

pub const EID: u64 = 0x4E41434C;

// Kept: a FID stays a number: C passes any number, the checks judge it, and the definitions are over numbers.
pub const PROBE: u64 = 0;

pub const SET: u64 = 1;

pub const SYNC_CSR: u64 = 2;

pub const SYNC_FENCE: u64 = 3;

pub const SYNC_SRET: u64 = 4;

pub const ALL_ONES: u64 = 0xFFFF_FFFF_FFFF_FFFF;

pub const ALL_ONES_32: u64 = 0xFFFF_FFFF;

// Holds the constants to the definitions.
fn constants() -> [u64; 8]
    ensures { result ≡ eid_nacl ∷ fid_probe ∷ fid_set ∷ fid_csr ∷ fid_fence ∷ fid_sret ∷ all_ones X64 ∷ all_ones X32 ∷ [] }
{
    [
        EID,
        PROBE,
        SET,
        SYNC_CSR,
        SYNC_FENCE,
        SYNC_SRET,
        ALL_ONES,
        ALL_ONES_32,
    ]
}

// All-ones at this width.
pub fn all_ones(x: Xlen) -> u64
    ensures { result ≡ all_ones x }
{
    match x {
        Xlen::X32 => ALL_ONES_32,
        Xlen::X64 => ALL_ONES,
    }
}

// What of a number a hart of this width can pass: at XLEN 32 the low 32 bits.
pub fn cut(x: Xlen, a: u64) -> u64
    ensures { result ≡ cut x a }
{
    match x {
        Xlen::X32 => a % 0x1_0000_0000,
        Xlen::X64 => a,
    }
}
