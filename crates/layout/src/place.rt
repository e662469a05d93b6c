// Where things stand in the page.
ghost use Rattle.std.specs.Prelude.{◌≡◌, ◌<◌};
ghost use Rattle.layout.specs.Width.{bytes};
ghost use Rattle.layout.specs.Geometry.{context_at, entry_at, csr_at, index_of, entry_count, swap_at};

use crate::xlen::Xlen;

// Where the autoswap flags stand.
pub const FLAGS_AT: usize = 0x200;

// Where the HSTATUS swap word stands.
pub fn swap_at(x: Xlen) -> usize
    ensures { result ≡ swap_at (bytes x) }
{
    FLAGS_AT + x.bytes()
}

// The index of a CSR number in the CSR space and the dirty bitmap.
pub fn index_of(csr: u64) -> usize
    ensures { result ≡ index_of csr }
{
    (((csr & 0xC00) / 4) | (csr & 0xFF)) as usize
}

// Where word i of the CSR space stands.
pub fn csr_at(x: Xlen, i: usize) -> usize
    requires { i < 1024 }
    ensures { result ≡ csr_at (bytes x) i }
{
    0x1000 + x.bytes() * i
}

// Where fence entry e stands.
pub fn entry_at(x: Xlen, e: usize) -> usize
    requires { e < entry_count (bytes x) }
    ensures { result ≡ entry_at (bytes x) e }
{
    0x800 + 4 * x.bytes() * e
}

// Where word i of the SRET context stands.
pub fn context_at(x: Xlen, i: usize) -> usize
    requires { i < 64 }
    ensures { result ≡ context_at (bytes x) i }
{
    x.bytes() * i
}
