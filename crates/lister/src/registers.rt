// The lines of dirty registers.
ghost use Rattle.std.specs.Prelude.{◌≡◌, ◌&&◌, ◌+◌, ◌*◌, ◌/◌, ◌%◌, ◌^◌, ◌<◌, eqb, length};
ghost use Rattle.csr.specs.Csrs.{csr_count, at_turn, has};
ghost use Rattle.text.specs.Buffer.{Put};
ghost use Rattle.page.specs.Registers.{IsPage, is_dirty};
ghost use Rattle.lister.specs.Marks.{dirty_csrs};
ghost use Rattle.lister.specs.Listing.{csr_line, lines};

use layout::dirty;
use layout::xlen::Xlen;
use page::registers;
use text::Buffer;

// Whether the width has the register at turn t, by its bit of `had`, and it is dirty. Few are: this is asked first.
fn is_listed(x: Xlen, had: u64, image: &[u8], t: usize) -> bool
    requires { (t < csr_count) × (eqb (had / 2 ^ t % 2) 1 ≡ has x (at_turn t)) × (IsPage x image.now) }
    ensures { result ≡ has x (at_turn t) && is_dirty image.now (at_turn t) }
{
    dirty::is_dirty(image, csr::index(t)) && (had >> t) % 2 == 1
}

// Puts the line of the register at turn t.
fn put_line(x: Xlen, image: &[u8], t: usize, out: &mut Buffer<u8>)
    requires { (IsPage x image.now) × (out.old.at + 25 < 2 ^ 64) }
    ensures { Put out.old (csr_line x image.now (at_turn t)) out.new }
{
    let value = registers::csr_word(x, image, csr::index(t));
    let digits = 2 * x.bytes();
    out.put_text(b"csr ");
    out.put_hex(csr::number(t), 3);
    out.put_text(b" ");
    out.put_hex(value, digits);
    out.put_text(b"\n");
}

// Puts the lines of the dirty registers, in turn order, and answers how many there are.
pub fn put_lines(x: Xlen, image: &[u8], out: &mut Buffer<u8>) -> u64
    requires { (IsPage x image.now) × (out.old.at + 25 * csr_count < 2 ^ 64) }
    ensures puts { Put out.old (lines (csr_line x image.now) (dirty_csrs x image.now)) out.new }
    ensures count_value { result ≡ length (dirty_csrs x image.now) }
{
    let had = csr::turns_had(x);
    let mut count = 0;
    for t in 0..csr::COUNT {
        if is_listed(x, had, image, t) {
            put_line(x, image, t, out);
            count += 1;
        }
    }
    count
}
