// The page lister: a page's dirty registers and pending fence entries as text, at either register width.
#![tactic(auto)]

ghost use Rattle.std.specs.Prelude.{◌≡◌, ◌+◌, ◌^◌, ◌<◌};
ghost use Rattle.text.specs.Buffer.{Put};
ghost use Rattle.page.specs.Registers.{IsPage};
ghost use Rattle.lister.specs.Listing.{totals, page_lines, max_length, Listed};

use hart::record::Hart;
use layout::xlen::Xlen;
use text::Buffer;

mod entries;
mod registers;

// No listing is longer.
pub const MAX_LENGTH: usize = 23_000;

// Holds the constant to its definition.
fn max_length() -> usize
    ensures { result ≡ max_length }
{
    MAX_LENGTH
}

// Puts the line of totals.
fn put_totals(out: &mut Buffer<u8>, csrs: u64, fences: u64)
    requires { out.old.at + 56 < 2 ^ 64 }
    ensures { Put out.old (totals csrs fences) out.new }
{
    out.put_field(b"dirty ", csrs);
    out.put_field(b" pending ", fences);
    out.put_text(b"\n");
}

// Puts the lines of a page.
fn put_page(x: Xlen, image: &[u8], out: &mut Buffer<u8>)
    requires { (IsPage x image.now) × (out.old.at + max_length < 2 ^ 64) }
    ensures { Put out.old (page_lines x image.now) out.new }
{
    let csrs = registers::put_lines(x, image, out);
    let fences = entries::put_lines(x, image, out);
    put_totals(out, csrs, fences);
}

// Writes the listing of an image to the start of `out`, as much of it as has room there, and says how long it is.
// The image's length tells the register width.
pub fn list(image: &[u8], out: &mut [u8]) -> usize
    ensures { Listed image.now out.old out.new result }
{
    let mut listing = Buffer::new(out, 0);
    if image.len() == Hart::PAGE_SIZE_32 {
        put_page(Xlen::X32, image, &mut listing);
    } else if image.len() == Hart::PAGE_SIZE {
        put_page(Xlen::X64, image, &mut listing);
    } else {
        listing.put_text(b"bad length\n");
    }
    listing.at
}
