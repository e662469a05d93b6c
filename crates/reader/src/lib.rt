// The page reader: a struct that holds a page and hands out a fence entry as that part of the page itself.
// Only its method `entry` takes the struct apart; `part_at` does the work. The function `entry` is for callers that have a page and no reader.
#![tactic(auto)]

ghost use Rattle.std.specs.Prelude.{◌≡◌};
ghost use Rattle.reader.specs.Part.{PartOf};

use hart::record::Hart;
use layout::place;
use layout::xlen::Xlen;

// A page that entries are read from.
#[derive(Clone, Copy)]
pub struct PageReader<'a> {
    pub page: &'a [u8],
}

// The part of the page that is entry e: an index above the last or a page of another length gives an empty part.
fn part_at(x: Xlen, page: &[u8], e: usize) -> &[u8]
    ensures { PartOf x page.entry e result }
{
    if page.len() != Hart::page_size(x) {
        return &page[..0];
    }
    if e >= Hart::entry_count(x) {
        return &page[..0];
    }
    let at = place::entry_at(x, e);
    &page[at..at + 4 * x.bytes()]
}

impl<'a> PageReader<'a> {
    // A reader of a page.
    pub fn new(page: &'a [u8]) -> PageReader<'a>
        ensures { result.page ≡ page.entry }
    {
        PageReader { page }
    }

    // Entry e, as that part of the page.
    pub fn entry(self, x: Xlen, e: usize) -> &'a [u8]
        ensures { PartOf x self.entry.page e result }
    {
        part_at(x, self.page, e)
    }
}

// Entry e of a page, by a reader of it.
pub fn entry(x: Xlen, page: &[u8], e: usize) -> &[u8]
    ensures { PartOf x page.entry e result }
{
    PageReader::new(page).entry(x, e)
}
