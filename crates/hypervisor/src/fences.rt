// A fence in the lowest entry that is free.
ghost use Rattle.std.specs.Prelude.{◌≡◌, true, ◌+◌, ◌*◌, ◌^◌, ◌<◌, ◌≤◌, take};
ghost use Rattle.layout.specs.Width.{bytes};
ghost use Rattle.layout.specs.Geometry.{entry_at, entry_count};
ghost use Rattle.layout.specs.Words.{put_word};
ghost use Rattle.page.specs.Registers.{IsPage};
ghost use Rattle.hypervisor.specs.Fences.{max_vmid, max_asid, good_fence, stored_asked, config_of};
ghost use Rattle.hypervisor.specs.Requests.{Hfence, FreeIs, entry_stores, stored_all, RequestIs, RequestFor};

use crate::answer::{Answer, Refusal};
use hart::record::Hart;
use hart::well_made;
use layout::xlen::Xlen;
use layout::{place, word};
use page::entries;

// The fence that is asked for: Type, Order, VMID, ASID, Page_Number (the address shifted right by Order + 12) and Page_Count. What its type does
// not use is written zero.
#[derive(Clone, Copy)]
pub struct Asked {
    pub kind: u64,
    pub order: u64,
    pub vmid: u64,
    pub asid: u64,
    pub number: u64,
    pub count: u64,
}

// How many stores a fence has.
const STORES: u64 = 4;

// The greatest VMID and ASID.
fn greatest(x: Xlen) -> (u64, u64)
    ensures { (result.0 ≡ max_vmid x) × (result.1 ≡ max_asid x) }
{
    match x {
        Xlen::X32 => (127, 511),
        Xlen::X64 => (16383, 65535),
    }
}

impl Asked {
    // The same with zero in what its type does not use: Order, Page_Number and Page_Count where it reaches all pages, VMID and ASID where it reaches
    // any.
    fn stored(self) -> Asked
        ensures { result ≡ stored_asked self }
    {
        let all_pages = self.kind % 2 == 1;
        Asked {
            order: if all_pages { 0 } else { self.order },
            vmid: if self.kind < 2 { 0 } else { self.vmid },
            asid: if self.kind < 6 { 0 } else { self.asid },
            number: if all_pages { 0 } else { self.number },
            count: if all_pages { 0 } else { self.count },
            ..self
        }
    }

    // Whether every field is within its limits. Page_Number and Page_Count count only where the type has a range.
    fn is_good(self, x: Xlen) -> bool
        ensures { result ≡ good_fence x self }
    {
        let (vmid, asid) = greatest(x);
        let stored = self.stored();
        (self.kind <= 7)
            & (self.order <= 127)
            & (self.vmid <= vmid)
            & (self.asid <= asid)
            & well_made::fits_word(x, stored.number)
            & well_made::fits_word(x, stored.count)
    }

    // Config. Its top 16 bits are Pending, which is set, Type and Order at either width; VMID and ASID stand below them.
    fn config(self, x: Xlen) -> u64
        requires { good_fence x self ≡ true }
        ensures { result ≡ config_of x self }
    {
        let stored = self.stored();
        let top = (0x80 + stored.kind) * 0x100 + stored.order;
        match x {
            Xlen::X32 => top * 0x1_0000 + stored.vmid * 0x200 + stored.asid,
            Xlen::X64 => top * 0x1_0000_0000_0000 + stored.vmid * 0x1_0000 + stored.asid,
        }
    }
}

// The lowest of so many entries, all that there are, that is not pending.
fn scan(x: Xlen, page: &[u8], count: usize) -> Option<usize>
    requires { (count ≡ entry_count (bytes x)) × (IsPage x page.now) }
    ensures { FreeIs x page.now result }
{
    (0..count).find(|&e| !entries::is_pending(x, page, e))
}

// The lowest entry that is not pending. Each width has its own loop, which is told how many entries there are.
fn free_entry(x: Xlen, page: &[u8]) -> Option<usize>
    requires { IsPage x page.now }
    ensures { FreeIs x page.now result }
{
    match x {
        Xlen::X32 => scan(Xlen::X32, page, Hart::ENTRY_COUNT_32),
        Xlen::X64 => scan(Xlen::X64, page, Hart::ENTRY_COUNT),
    }
}

// Stores word k of entry e.
fn put(x: Xlen, page: &mut [u8], e: usize, k: usize, v: u64)
    requires { (IsPage x page.old) × (e < entry_count (bytes x)) × (k < 4) }
    ensures { page.new ≡ put_word (bytes x) page.old (entry_at (bytes x) e + bytes x * k) v }
{
    word::put_word(x, page, place::entry_at(x, e) + x.bytes() * k, v);
}

// The first `limit` stores of a fence into entry e: Page_Number, Page_Count, word 2, and Config last.
fn put_entry(x: Xlen, page: &mut [u8], e: usize, a: Asked, limit: u64)
    requires { (IsPage x page.old) × (e < entry_count (bytes x)) × (good_fence x a ≡ true) }
    ensures { page.new ≡ stored_all x (take limit (entry_stores x a e)) page.old }
{
    let stored = a.stored();
    let config = a.config(x);
    let words = [(1, stored.number), (3, stored.count), (2, 0), (0, config)];
    for &(k, v) in words.iter().take(limit as usize) {
        put(x, page, e, k, v);
    }
}

// The first `limit` of the four stores by which a fence is queued; the answer is that of all.
pub fn queue_for(x: Xlen, page: &mut [u8], a: Asked, limit: u64) -> Answer
    ensures { RequestFor limit x (Hfence a) page.old result page.new }
{
    if page.len() != Hart::page_size(x) {
        return Err(Refusal::Failed);
    }
    if !a.is_good(x) {
        return Err(Refusal::InvalidParam);
    }
    let e = free_entry(x, page).ok_or(Refusal::Denied)?;
    put_entry(x, page, e, a, limit);
    Ok(e as u64)
}

// Queues a fence in the lowest entry that is not pending; the value is its number.
pub fn queue(x: Xlen, page: &mut [u8], a: Asked) -> Answer
    ensures { RequestIs x (Hfence a) page.old result page.new }
{
    queue_for(x, page, a, STORES)
}
