// The kinds of records. A header gives a kind by its number.
ghost use Rattle.std.specs.Prelude.{◌≡◌};
ghost use Rattle.recording.specs.Format.{good_length, is_store};
ghost use Rattle.recording.specs.Kinds.{number, Decodes};

// What a record tells: a call, bytes written to memory, a change of the lines, a slot placed, or a trap.
#[derive(Clone, Copy, Debug, PartialEq, Eq)]
pub enum Kind {
    Call,
    Write,
    Lines,
    Slot,
    Trap,
}

// A number that no kind has.
#[derive(Clone, Copy, Debug, PartialEq, Eq)]
pub struct UnknownKind(pub u64);

impl TryFrom<u64> for Kind {
    type Error = UnknownKind;

    ghost try_from_gives = { Decodes };

    fn try_from(number: u64) -> Result<Self, UnknownKind> {
        match number {
            1 => Ok(Kind::Call),
            2 => Ok(Kind::Write),
            3 => Ok(Kind::Lines),
            4 => Ok(Kind::Slot),
            5 => Ok(Kind::Trap),
            _ => Err(UnknownKind(number)),
        }
    }
}

impl From<Kind> for u64 {
    ghost from_gives = { λ kind n. n ≡ number kind };

    fn from(kind: Kind) -> u64 {
        match kind {
            Kind::Call => 1,
            Kind::Write => 2,
            Kind::Lines => 3,
            Kind::Slot => 4,
            Kind::Trap => 5,
        }
    }
}

impl Kind {
    // Whether a body of this kind may have this length.
    #[tactic(auto, unfolding(crate::specs::Format::good_length))]
    pub fn is_good_length(self, n: usize) -> bool
        ensures { result ≡ good_length (number self) n }
    {
        match self {
            Kind::Call | Kind::Slot | Kind::Trap => n == 40,
            Kind::Write => (9 <= n) & (n <= 4104),
            Kind::Lines => n == 8,
        }
    }

    // Whether a record of this kind is a memory write or a slot.
    pub fn is_store(self) -> bool
        ensures { result ≡ is_store (number self) }
    {
        matches!(self, Kind::Write | Kind::Slot)
    }
}
