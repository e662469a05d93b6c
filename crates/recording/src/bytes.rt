// Bytes of memory.
ghost use Rattle.std.specs.Prelude.{◌≡◌, length};

// Copies bytes.
// Kept: a loop, and not the library's copy_from_slice, of which the compiler makes a call of memmove where it can't see that the two lie apart:
// the archive for C asks its users for memcpy and memset alone.
pub fn copy(to: &mut [u8], from: &[u8])
    requires { length to.old ≡ length from.now }
    ensures { to.new ≡ from.now }
{
    for i in 0..to.len() {
        to[i] = from[i];
    }
}
