// Fields of a word.
ghost use Rattle.std.specs.Prelude.{◌≡◌, ◌<◌};
ghost use Rattle.layout.specs.Bits.{field};

// The number in the `count` bits of x from bit `low` up.
pub(crate) fn field(x: u64, low: u32, count: u32) -> u64
    requires low_in_word { low < 64 }
    requires count_in_word { count < 64 }
    ensures { result ≡ field x low count }
{
    (x >> low) % (1 << count)
}
