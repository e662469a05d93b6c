// The lines of pending fence entries.
ghost use Rattle.std.specs.Prelude.{◌≡◌, ◌+◌, ◌*◌, ◌^◌, ◌<◌, length};
ghost use Rattle.text.specs.Buffer.{Put};
ghost use Rattle.layout.specs.Width.{bytes};
ghost use Rattle.layout.specs.Geometry.{entry_count};
ghost use Rattle.page.specs.Registers.{IsPage};
ghost use Rattle.lister.specs.Marks.{pending_entries};
ghost use Rattle.lister.specs.Listing.{fields, fence_line, lines};

use fence::entry;
use hart::record::Hart;
use layout::xlen::Xlen;
use page::entries;
use text::Buffer;

// Puts the fields of a readable entry with these words.
fn put_fields(x: Xlen, config: u64, number: u64, count: u64, out: &mut Buffer<u8>)
    requires { out.old.at + 159 < 2 ^ 64 }
    ensures { Put out.old (fields x config number count) out.new }
{
    out.put_field(b" type ", entry::kind(x, config));
    out.put_field(b" order ", entry::order(x, config));
    out.put_field(b" vmid ", entry::vmid(x, config));
    out.put_field(b" asid ", entry::asid(x, config));
    out.put_field(b" page ", number);
    out.put_field(b" count ", count);
    out.put_text(b"\n");
}

// Puts the line of entry e.
fn put_line(x: Xlen, image: &[u8], e: usize, out: &mut Buffer<u8>)
    requires { (e < entry_count (bytes x)) × (IsPage x image.now) × (out.old.at + 185 < 2 ^ 64) }
    ensures { Put out.old (fence_line x image.now e) out.new }
{
    let config = entries::entry_word(x, image, e, 0);
    let number = entries::entry_word(x, image, e, 1);
    let word2 = entries::entry_word(x, image, e, 2);
    let count = entries::entry_word(x, image, e, 3);
    out.put_field(b"fence ", e as u64);
    if entry::is_readable(x, config, word2) {
        put_fields(x, config, number, count, out);
    } else {
        out.put_text(b" all\n");
    }
}

// Puts the lines of the pending entries, ascending, and answers how many there are.
pub fn put_lines(x: Xlen, image: &[u8], out: &mut Buffer<u8>) -> u64
    requires { (IsPage x image.now) × (out.old.at + 185 * entry_count (bytes x) < 2 ^ 64) }
    ensures puts { Put out.old (lines (fence_line x image.now) (pending_entries x image.now)) out.new }
    ensures count_value { result ≡ length (pending_entries x image.now) }
{
    let end = Hart::entry_count(x);
    let mut count = 0;
    // Kept: from pending entry to pending entry: a `for` that asks each entry took three times the instructions where none is pending.
    let mut e = entries::next_pending(x, image, 0, end);
    while e < end {
        put_line(x, image, e, out);
        count += 1;
        e = entries::next_pending(x, image, e + 1, end);
    }
    count
}
