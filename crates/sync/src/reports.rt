// What register writes say of the bits that they dropped, as words in a lent buffer: of each the CSR, then the bits. What has no room is left
// out and counted all the same.
ghost use Rattle.std.specs.Prelude.{◌+◌, ◌^◌, ◌<◌};
ghost use Rattle.text.specs.Buffer.{Put};
ghost use Rattle.hart.specs.Dropped.{report_with, report_words};

use text::Buffer;

// Puts what a write of this CSR says, if it dropped bits.
pub fn put(told: &mut Buffer<u64>, csr: u64, bits: u64)
    requires { told.old.at + 2 < 2 ^ 64 }
    ensures { Put told.old (report_words (report_with csr bits)) told.new }
{
    if bits > 0 {
        told.put(csr);
        told.put(bits);
    }
}
