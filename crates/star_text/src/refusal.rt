// Why a file, the tables that are lent for it, an output or an index is refused, and where.
ghost use Rattle.std.specs.Prelude.{◌≡◌};
ghost use Rattle.star_text.specs.Refusal.{number};

// The reasons of a refusal, each with its number in the interface.
#[derive(Clone, Copy, PartialEq, Eq, Debug)]
pub enum Reason {
    TooLong = 1,
    BadByte = 2,
    IllFormed = 3,
    LongName = 4,
    OpenQuote = 5,
    OpenField = 6,
    NoRoom = 7,
    OutOfPlace = 8,
    Taken = 9,
    Incomplete = 10,
    TooDeep = 11,
    NoLayout = 14,
    NoIndex = 15,
    HeaderStop = 16,
}

// A refusal: its reason and its place.
#[derive(Clone, Copy, PartialEq, Eq, Debug)]
pub struct Refusal {
    pub reason: Reason,
    pub place: u32,
}

impl Reason {
    // Its number in the interface.
    pub fn number(self) -> u32
        ensures { result ≡ number self }
    {
        self as u32
    }
}
