// The word of a CSR index in the page.
// Kept: an arm for each width: by one call that is given the width, all registers' turns at both widths take 4,097 instructions, and so 3,901.
ghost use Rattle.std.specs.Prelude.{◌≡◌, ◌<◌};
ghost use Rattle.layout.specs.Width.{bytes};
ghost use Rattle.layout.specs.Geometry.{csr_at};
ghost use Rattle.layout.specs.Words.{word_at, put_word};
ghost use Rattle.page.specs.Registers.{IsPage};

use layout::xlen::Xlen;
use layout::{place, word};

// The word of index i.
pub fn csr_word(x: Xlen, page: &[u8], i: usize) -> u64
    requires { (i < 1024) × (IsPage x page.now) }
    ensures { result ≡ word_at (bytes x) page.now (csr_at (bytes x) i) }
{
    match x {
        Xlen::X32 => word::word_at(Xlen::X32, page, place::csr_at(Xlen::X32, i)),
        Xlen::X64 => word::word_at(Xlen::X64, page, place::csr_at(Xlen::X64, i)),
    }
}

// Stores v in the word of index i.
pub fn put_csr(x: Xlen, page: &mut [u8], i: usize, v: u64)
    requires { (i < 1024) × (IsPage x page.old) }
    ensures { page.new ≡ put_word (bytes x) page.old (csr_at (bytes x) i) v }
{
    match x {
        Xlen::X32 => word::put_word(Xlen::X32, page, place::csr_at(Xlen::X32, i), v),
        Xlen::X64 => word::put_word(Xlen::X64, page, place::csr_at(Xlen::X64, i), v),
    }
}
