// A sum of two words that a search asks of.
ghost use Rattle.std.specs.Prelude.{◌≡◌, bit_xor};
ghost use Rattle.levels.specs.Words.{code_sum};

use levels::Levels;

/// The sum of two words, with the opposite of the second: the word whose sum with it is code 0.
#[derive(Clone, Copy)]
pub struct Sum {
    pub first: u64,
    pub second: u64,
    pub opposite: u64,
}

impl Sum {
    /// The sum, digit by digit.
    #[inline]
    pub fn word<L: Levels>(&self) -> u64
        ensures { result ≡ code_sum L.model self.now.first self.now.second }
    {
        L::add(self.first, self.second)
    }

    /// A code whose digits differ from 0 at the factors where those of the sum do: there the first word is not the opposite of the second.
    #[inline]
    pub fn places(&self) -> u64
        ensures { result ≡ bit_xor self.now.first self.now.opposite }
    {
        self.first ^ self.opposite
    }
}
