// The number of a refusal: document 01, section "Questions in order", and document 02, T-02.
ghost use Rattle.std.specs.Prelude.{◌≡◌};
ghost use Rattle.units.specs.Refusals.{number_of};

use std::fmt;
use std::fmt::Write;

// The question that a refused call answered with no.
#[derive(Clone, Copy, Debug, PartialEq, Eq)]
pub enum Refusal {
    TooManyBytes = 1,
    BrokenRecord = 2,
    EndNotLast = 3,
    MisplacedRecord = 4,
    BadFlag = 5,
    MalformedLists = 6,
    OutsideGrid = 7,
    IndexesNotRising = 8,
    SizeOutOfRange = 9,
    CoordinateOverflow = 10,
    ListTooShort = 11,
    TooManyPages = 12,
    PageListTooShort = 13,
    NoSuchNumber = 14,
    TooManyCells = 15,
}

impl Refusal {
    // Its number: the cast, by a name that clauses have too. No `From`, which would say the same at more length.
    pub fn number(self) -> u8
        ensures { result ≡ number_of self }
    {
        self as u8
    }
}

// As programs print it: `no 10`.
impl fmt::Display for Refusal {
    fn fmt<W: fmt::Write>(&self, f: &mut fmt::Formatter<W>) -> fmt::Result {
        write!(f, "no {}", self.number())
    }
}
