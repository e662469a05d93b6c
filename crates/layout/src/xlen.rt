// The register width.
ghost use Rattle.std.specs.Prelude.{◌≡◌};
ghost use Rattle.layout.specs.Width.{bits, bytes, IsWidthOf};

// XLEN: 32 or 64 bits.
#[derive(Clone, Copy, Debug, PartialEq, Eq)]
pub enum Xlen {
    X32,
    X64,
}

// A number of bits that is no register width.
#[derive(Clone, Copy, Debug, PartialEq, Eq)]
pub struct UnknownWidth(pub u64);

impl Xlen {
    // How many bytes a word has: XLEN / 8.
    pub fn bytes(self) -> usize
        ensures { result ≡ bytes self }
    {
        match self {
            Xlen::X32 => 4,
            Xlen::X64 => 8,
        }
    }
}

// The width of so many bits.
impl TryFrom<u64> for Xlen {
    type Error = UnknownWidth;

    ghost try_from_gives = { IsWidthOf };

    fn try_from(bits: u64) -> Result<Self, UnknownWidth> {
        match bits {
            32 => Ok(Xlen::X32),
            64 => Ok(Xlen::X64),
            _ => Err(UnknownWidth(bits)),
        }
    }
}

// How many bits the width has.
impl From<Xlen> for u64 {
    ghost from_gives = { λ x n. n ≡ bits x };

    fn from(x: Xlen) -> u64 {
        match x {
            Xlen::X32 => 32,
            Xlen::X64 => 64,
        }
    }
}
