// What the register width decides of a hart's page.
ghost use Rattle.std.specs.Prelude.{◌≡◌};
ghost use Rattle.layout.specs.Width.{bytes};
ghost use Rattle.layout.specs.Geometry.{page_size, entry_count};

use crate::record::Hart;
use layout::xlen::Xlen;

impl Hart {
    // The bytes of the shared page.
    pub fn page_size(x: Xlen) -> usize
        ensures { result ≡ page_size (bytes x) }
    {
        match x {
            Xlen::X32 => Hart::PAGE_SIZE_32,
            Xlen::X64 => Hart::PAGE_SIZE,
        }
    }

    // How many fence entries it has.
    pub fn entry_count(x: Xlen) -> usize
        ensures { result ≡ entry_count (bytes x) }
    {
        match x {
            Xlen::X32 => Hart::ENTRY_COUNT_32,
            Xlen::X64 => Hart::ENTRY_COUNT,
        }
    }
}
