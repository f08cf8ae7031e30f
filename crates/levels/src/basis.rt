// A basis of what a list of words generates, by which a word is known to be generated in a handful of sums.
ghost use Rattle.std.specs.Prelude.{◌≡◌, ◌≤◌, [], length, take, drop, Decides};
ghost use Rattle.levels.specs.Space.{Word};
ghost use Rattle.levels.specs.Generated.{Generates};
ghost use Rattle.levels.specs.Basis.{Echelon, LeastAlias};
ghost use Rattle.levels.specs.Rows.{basis_rows, Admitted, Extended, LeastMultiple};

use crate::arithmetic::Levels;
use bounded::Bounded;

// Words of n factors have at most 32 independent ones.
const ROWS: usize = 32;

/// Independent words. Each is the smallest code that is left of it by multiples of those before it.
#[derive(Clone, Copy)]
pub struct Basis {
    rows: Bounded<u64, ROWS>,
}

impl Basis {
    /// No words.
    pub fn new() -> Basis
        ensures { basis_rows result ≡ [] }
    {
        Basis {
            rows: Bounded::new(0),
        }
    }

    /// The rows, in the order in which they were admitted.
    pub fn rows(&self) -> &[u64]
        ensures { result.now ≡ basis_rows self.now }
    {
        self.rows.as_slice()
    }

    /// How many rows there are.
    pub fn len(&self) -> usize
        ensures count { result ≡ length (basis_rows self.now) }
        ensures few { result ≤ 32 }
    {
        self.rows.len()
    }

    /// What is left of a word by multiples of the rows: code 0 exactly if they generate it.
    /// The rows are in echelon form, and the word is legal.
    pub fn reduce<L: Levels>(&self, n: u8, word: u64) -> u64
        ensures { Echelon L.Levels.model n (basis_rows self.now) → Word L.Levels.model n word → LeastAlias L.Levels.model n (basis_rows self.now) word result }
    {
        reduce_by::<L>(n, self.rows(), word)
    }

    /// One word more: nothing where it is illegal or generated already.
    pub fn admit<L: Levels>(&mut self, n: u8, word: u64)
        ensures { Admitted L.Levels.model n (basis_rows self.old) word (basis_rows self.new) }
    {
        if !L::legal(n, word) {
            return;
        }
        let left = self.reduce::<L>(n, word);
        if left != 0 {
            self.rows.push(left);
        }
    }

    /// All words of a list.
    pub fn admit_all<L: Levels>(&mut self, n: u8, words: &[u64])
        ensures { Extended L.Levels.model n (basis_rows self.old) words.now (basis_rows self.new) }
    {
        for word in words {
            self.admit::<L>(n, *word);
        }
    }
}

/// What is left of a word by multiples of rows.
pub fn reduce_by<L: Levels>(n: u8, rows: &[u64], word: u64) -> u64
    ensures { Echelon L.Levels.model n rows.now → Word L.Levels.model n word → LeastAlias L.Levels.model n rows.now word result }
{
    let mut left = word;
    for row in rows {
        left = least::<L>(n, *row, left);
    }
    left
}

// The smallest code among a word plus the multiples of a row.
fn least<L: Levels>(n: u8, row: u64, word: u64) -> u64
    ensures { Word L.Levels.model n row → Word L.Levels.model n word → LeastMultiple L.Levels.model n L.Levels.model.s row word result }
{
    let mut smallest = word;
    for level in 1..L::LEVELS {
        smallest = smallest.min(L::add(word, L::product(n, level, row)));
    }
    smallest
}

/// Whether a list of words generates a word. An illegal word of the list contributes nothing.
pub fn generated<L: Levels>(n: u8, words: &[u64], word: u64) -> bool
    ensures { Decides result (Generates L.Levels.model n words.now word) }
{
    let mut basis = Basis::new();
    basis.admit_all::<L>(n, words);
    word == 0 || L::legal(n, word) && basis.reduce::<L>(n, word) == 0
}
