// Little-endian words in a slice of bytes.
ghost use Rattle.std.specs.Prelude.{◌≡◌, ◌+◌, ◌≤◌, length};
ghost use Rattle.layout.specs.Width.{bytes};
ghost use Rattle.layout.specs.Words.{word_at, put_word};

use crate::xlen::Xlen;

// The word at an offset: at XLEN 32 the upper four bytes of the number are zero.
pub fn word_at(x: Xlen, page: &[u8], at: usize) -> u64
    requires { at + bytes x ≤ length page.now }
    ensures { result ≡ word_at (bytes x) page.now at }
{
    let mut bytes = [0; 8];
    match x {
        Xlen::X32 => bytes[..4].copy_from_slice(&page[at..at + 4]),
        Xlen::X64 => bytes.copy_from_slice(&page[at..at + 8]),
    }
    u64::from_le_bytes(bytes)
}

// Stores a word at an offset: at XLEN 32 the low four bytes of the number.
pub fn put_word(x: Xlen, page: &mut [u8], at: usize, v: u64)
    requires { at + bytes x ≤ length page.old }
    ensures { page.new ≡ put_word (bytes x) page.old at v }
{
    let bytes = v.to_le_bytes();
    match x {
        Xlen::X32 => page[at..at + 4].copy_from_slice(&bytes[..4]),
        Xlen::X64 => page[at..at + 8].copy_from_slice(&bytes),
    }
}
