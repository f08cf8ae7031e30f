// Sums of multiples of some words, and their opposites: so that the length of a further sum is found without the sum.
ghost use Rattle.std.specs.Prelude.{◌≡◌, length};
ghost use Rattle.std.specs.Bool.{OnFalse, OnTrue};
ghost use Rattle.bounded.specs.Items.{items_of};
ghost use Rattle.levels.specs.Words.{legal};
ghost use Rattle.levels.specs.Leaves.{AllOpposite, AreOpposite, leaf_words};

use crate::arithmetic::Levels;
use crate::span::Sums;
use bounded::Bounded;

/// Words, and beside each its opposite.
#[derive(Drop)]
pub struct Leaves {
    words: Sums,
    opposites: Sums,
}

impl Leaves {
    /// Words of n factors.
    pub fn new<L: Levels>(n: u8, words: Sums) -> Leaves
        ensures words { leaf_words result ≡ items_of words }
        ensures opposites { AllOpposite L.model n result }
    {
        let mut opposites = Bounded::new(0);
        for word in words.as_slice() {
            opposites.push(opposite::<L>(n, *word));
        }
        Leaves { words, opposites }
    }

    /// The words.
    #[inline]
    pub fn words(&self) -> &[u64]
        ensures { result.now ≡ leaf_words self.now }
    {
        self.words.as_slice()
    }

    /// Their opposites, in the same order.
    #[inline]
    pub fn opposites(&self) -> &[u64]
        ensures { result.now ≡ items_of self.now.opposites }
    {
        self.opposites.as_slice()
    }
}

/// The word of n factors whose sum with a word is code 0; code 0 where the word is illegal.
pub fn opposite<L: Levels>(n: u8, word: u64) -> u64
    ensures yes { OnTrue (legal L.model n word) (AreOpposite L.model n word result) }
    ensures no { OnFalse (legal L.model n word) (result ≡ 0) }
{
    if !L::legal(n, word) {
        return 0;
    }
    for level in 1..L::LEVELS {
        let multiple = L::product(n, level, word);
        if L::add(word, multiple) == 0 {
            return multiple;
        }
    }
    0
}
