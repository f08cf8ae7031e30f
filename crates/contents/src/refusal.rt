// Why a call is refused.
ghost use Rattle.std.specs.Prelude.{◌≡◌, Some};
ghost use Rattle.contents.specs.Refusals.{number_of, refusal_text};

use std::error::Error;
use std::fmt;

#[derive(Clone, Copy, PartialEq, Eq, Debug)]
pub enum Refusal {
    /// the number of factors is not from 1 to 32
    Factors = 1,
    /// a code is illegal
    Illegal = 2,
    /// the words of the plan generate the word
    Generated = 3,
    /// more words than a plan may have
    Limit = 4,
    /// there is no word at this place
    Place = 5,
    /// the memory is shorter than the answer
    Memory = 6,
    /// the file is cut short
    Cut = 7,
    /// the file's mark is not DWF
    Mark = 8,
    /// the file's version is not 1
    Version = 9,
    /// the file's levels are not the plan's
    Levels = 10,
    /// bytes follow the end of the file's content
    Surplus = 11,
    /// the number is past the last
    Last = 12,
}

impl Refusal {
    /// The number by which a refusal is reported, for callers that name it.
    pub fn number(self) -> u8
        ensures { result ≡ number_of self }
    {
        self as u8
    }
}

// A refusal as its number.
impl From<Refusal> for u8 {
    ghost from_gives = { λ refusal number. number ≡ number_of refusal };

    fn from(refusal: Refusal) -> u8 {
        refusal.number()
    }
}

// A refusal is printed with its number.
impl fmt::Display for Refusal {
    ghost output = { λ refusal. Some (refusal_text refusal) };

    fn fmt<W: fmt::Write>(&self, f: &mut fmt::Formatter<W>) -> fmt::Result {
        let number = u8::from(*self);
        write!(f, "refused {number}")
    }
}

impl Error for Refusal {}
