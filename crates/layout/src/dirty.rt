// The dirty bit of a CSR index.
ghost use Rattle.std.specs.Prelude.{◌≡◌, ◌<◌, ◌≤◌, length};
ghost use Rattle.layout.specs.Bits.{bit_of, clear_bit, set_bit};
ghost use Rattle.layout.specs.Dirty.{dirty, clear_dirty, set_dirty};

// Bit k of a byte.
fn bit(b: u8, k: u8) -> u8
    requires { k < 8 }
    ensures { result ≡ bit_of b k }
{
    (b >> k) % 2
}

// Whether index i is marked dirty.
pub fn is_dirty(page: &[u8], i: usize) -> bool
    requires { (i < 1024) × (0x1000 ≤ length page.now) }
    ensures { result ≡ dirty page.now i }
{
    bit(page[0xF80 + i / 8], (i % 8) as u8) == 1
}

// Clears the dirty bit of index i.
pub fn clear_dirty(page: &mut [u8], i: usize)
    requires { (i < 1024) × (0x1000 ≤ length page.old) }
    ensures { page.new ≡ clear_dirty page.old i }
{
    let at = 0xF80 + i / 8;
    page[at] = cleared(page[at], (i % 8) as u8);
}

// Sets the dirty bit of index i, as the hypervisor does to mark a register.
pub fn set_dirty(page: &mut [u8], i: usize)
    requires { (i < 1024) × (0x1000 ≤ length page.old) }
    ensures { page.new ≡ set_dirty page.old i }
{
    let at = 0xF80 + i / 8;
    page[at] = marked(page[at], (i % 8) as u8);
}

// A byte with bit k cleared.
fn cleared(b: u8, k: u8) -> u8
    requires { k < 8 }
    ensures { result ≡ clear_bit b k }
{
    b - (bit(b, k) << k)
}

// A byte with bit k set.
fn marked(b: u8, k: u8) -> u8
    requires { k < 8 }
    ensures { result ≡ set_bit b k }
{
    cleared(b, k) + (1 << k)
}
