// Where the page lies in the L1 memory that the monitor lends.
#![tactic(auto)]

ghost use Rattle.std.specs.Prelude.{◌≡◌, true};
ghost use Rattle.world.specs.World.{in_memory, page_there, page_offset};

use hart::record::Hart;
use layout::xlen::Xlen;

// The bytes of a page of this width from address a lie wholly in L1 memory.
pub fn in_memory(x: Xlen, base: u64, memory: &[u8], a: u64) -> bool
    ensures { result ≡ in_memory x base memory.now a }
{
    let size = Hart::page_size(x);
    a >= base && memory.len() >= size && a - base <= (memory.len() - size) as u64
}

// The page is set and lies wholly in L1 memory.
pub fn page_there(x: Xlen, base: u64, memory: &[u8], s: Option<u64>) -> bool
    ensures { result ≡ page_there x base memory.now s }
{
    s.is_some_and(|a| in_memory(x, base, memory, a))
}

// Where the page begins in memory.
pub fn page_offset(x: Xlen, base: u64, memory: &[u8], s: Option<u64>) -> usize
    requires { page_there x base memory.now s ≡ true }
    ensures { result ≡ page_offset base s }
{
    match s {
        None => 0,
        Some(a) => (a - base) as usize,
    }
}
