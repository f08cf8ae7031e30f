// What is proved of every arithmetic of levels, each theorem in the contract of a function that does nothing else.
ghost use Rattle.std.specs.Prelude.{ℕ};
ghost use Rattle.levels.specs.Theorems.{CodesAndDigits, WordsAreAVectorSpace, Lengths, Generation};

use crate::arithmetic::Levels;

/// Each list of digits belongs to exactly one legal code.
pub fn codes_and_digits<L: Levels>()
    ensures { CodesAndDigits L.Levels.model }
{}

/// Legal words form a vector space over the levels.
pub fn words_are_a_vector_space<L: Levels>()
    ensures { WordsAreAVectorSpace L.Levels.model }
{}

/// A length counts the digits that are not 0.
pub fn lengths<L: Levels>()
    ensures { Lengths L.Levels.model }
{}

/// The theory of generated words and independent lists.
pub fn generation<L: Levels>()
    ensures { (n : ℕ) → Generation L.Levels.model n }
{}
