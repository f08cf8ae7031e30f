// The words that a list generates, gone through with one sum a word.
ghost use Rattle.std.specs.Prelude.{◌≡◌, ℕ, ◌*◌, ◌^◌, ◌<◌, ◌≤◌, true, false, ◌&&◌, ◌⊎◌, ◌++◌, map, length, drop, slice_index};
ghost use Rattle.bounded.specs.Items.{items_of};
ghost use Rattle.levels.specs.Space.{AllWords, Word};
ghost use Rattle.levels.specs.Words.{legal, word_sum};
ghost use Rattle.levels.specs.Generated.{combinations};
ghost use Rattle.std.proofs.Props.{props};
ghost use Rattle.levels.specs.Leaves.{AllOpposite, leaf_words};
ghost use Rattle.levels.specs.Alias.{Adds, aliases, any_shorter, tallied, with_multiples, with_all_multiples};

use crate::arithmetic::Levels;
use crate::opposites::Leaves;
use bounded::Bounded;
use std::marker::PhantomData;

/// How many sums are listed at once: four words of three levels have 81.
pub const LEAVES: usize = 81;

/// Sums of multiples of words.
pub type Sums = Bounded<u64, LEAVES>;

/// A word has at most 32 factors, so it has one of 33 lengths.
pub const LENGTHS: usize = 33;

/// How many words there are of each length.
pub type Tally = [u64; LENGTHS];

/// Words of so many factors, with all sums of multiples of the last ones, which are listed once for all that is asked of them.
#[derive(Drop)]
pub struct Span<'a, L: Levels> {
    factors: u8,
    words: &'a [u64],
    before: &'a [u64],
    leaves: Leaves,
    levels: PhantomData<L>,
    ghost whole: { before.now ++ drop (length before.now) words.now ≡ words.now },
    ghost listed: { leaf_words leaves ≡ combinations L.model factors (drop (length before.now) words.now) },
    ghost opposites: { AllOpposite L.model factors leaves } by { Prim.hlevel props },
}

impl<'a, L: Levels> Span<'a, L> {
    /// Of a list of words.
    pub fn new(factors: u8, words: &'a [u64]) -> Span<'a, L>
        ensures factors { result.factors ≡ factors }
        ensures words { result.words.now ≡ words.now }
    {
        let (before, sums) = list_sums::<L>(factors, words);
        Span {
            factors,
            words,
            before,
            leaves: Leaves::new::<L>(factors, sums),
            levels: PhantomData,
        }
    }

    /// The number of factors.
    pub fn factors(&self) -> u8
        ensures { result ≡ self.now.factors }
    {
        self.factors
    }

    /// The words.
    pub fn words(&self) -> &[u64]
        ensures { result.now ≡ self.now.words.now }
    {
        self.words
    }

    /// Counts, by length, the sums of a start and the multiples of the words: one for each choice of levels.
    /// All counts are 0 where the start is illegal.
    pub fn tally(&self, start: u64) -> Tally
        ensures { (i : ℕ) → i < 33 → slice_index result i ≡ tallied L.Levels.model self.now.factors self.now.words.now start i }
    {
        let n = self.factors;
        let mut counts = [0; LENGTHS];
        if L::legal(n, start) {
            count::<L>(n, self.before, &self.leaves, start, &mut counts);
        }
        counts
    }

    /// Whether a sum of a start and multiples of the words has fewer digits other than 0 than a bound. None has where the start is
    /// illegal.
    pub fn any_shorter(&self, start: u64, bound: u8) -> bool
        ensures { let n = self.now.factors in
            let all = aliases L.model n self.now.words.now start in
            result ≡ (legal L.model n start && any_shorter L.model bound all) }
    {
        let n = self.factors;
        L::legal(n, start) && shorter::<L>(n, self.before, &self.leaves, start, bound)
    }
}

/// All sums of multiples of the last words, of as many words as there is room for, behind the words that come before these.
pub fn list_sums<L: Levels>(n: u8, words: &[u64]) -> (&[u64], Sums)
    ensures words { result.0.now ++ drop (length result.0.now) words.now ≡ words.now }
    ensures few { length (items_of result.1) ≤ 81 }
    ensures full { legal L.Levels.model n 0 ≡ true → (length result.0.now ≡ 0) ⊎ (81 < length (items_of result.1) * L.Levels.model.s) }
    ensures none { legal L.Levels.model n 0 ≡ false → result.0.now ≡ words.now }
    ensures sums { items_of result.1 ≡ combinations L.Levels.model n (drop (length result.0.now) words.now) }
{
    let mut sums = Bounded::new(0);
    sums.push(0);
    let mut before = words;
    if L::legal(n, 0) {
        while let [rest @ .., word] = before {
            if sums.len() * usize::from(L::LEVELS) > LEAVES {
                break;
            }
            spread::<L>(n, *word, &mut sums);
            before = rest;
        }
    }
    (before, sums)
}

// The sums of a list, again with each further multiple of a word. It asks for legal sums: see `count`.
fn spread<L: Levels>(n: u8, word: u64, sums: &mut Sums)
    requires room { length (items_of sums.old) * L.Levels.model.s ≤ 81 }
    requires legal { AllWords L.Levels.model n (items_of sums.old) }
    ensures { items_of sums.new ≡ with_multiples L.Levels.model n word (items_of sums.old) }
{
    let front = *sums;
    for level in 1..L::LEVELS {
        let multiple = L::product(n, level, word);
        for sum in front.as_slice() {
            sums.push(L::add(multiple, *sum));
        }
    }
}

// Counts the sums of a start, the multiples of words and a leaf. A type for legal words, or for words, leaves and start
// together, would carry the factors too, and the contract would ask that these are n instead. Not of a `Span`: it goes on
// with the rest of the words.
fn count<L: Levels>(n: u8, words: &[u64], leaves: &Leaves, start: u64, counts: &mut Tally)
    requires start { Word L.Levels.model n start }
    requires legal { AllWords L.model n (leaf_words leaves.now) }
    requires opposites { AllOpposite L.model n leaves.now }
    requires fit { (i : ℕ) → i < 33 → slice_index counts.old i < 2 ^ 64 }
    ensures { let sums = with_all_multiples L.model n words.now (leaf_words leaves.now) in
        Adds L.model (map (word_sum L.model n start) sums) counts.old counts.new }
{
    match words {
        [] => {
            for opposite in leaves.opposites() {
                let length = usize::from(L::length(start ^ *opposite));
                counts[length] = counts[length].wrapping_add(1);
            }
        }
        [word, rest @ ..] => {
            for level in 0..L::LEVELS {
                count::<L>(
                    n,
                    rest,
                    leaves,
                    L::add(start, L::product(n, level, *word)),
                    counts,
                );
            }
        }
    }
}

// Whether a sum of a start, multiples of words and a leaf is shorter than a bound.
fn shorter<L: Levels>(n: u8, words: &[u64], leaves: &Leaves, start: u64, bound: u8) -> bool
    requires start { Word L.model n start }
    requires legal { AllWords L.model n (leaf_words leaves.now) }
    requires opposites { AllOpposite L.model n leaves.now }
    ensures { let sums = with_all_multiples L.model n words.now (leaf_words leaves.now) in
        result ≡ any_shorter L.model bound (map (word_sum L.model n start) sums) }
{
    match words {
        [] => {
            for opposite in leaves.opposites() {
                if L::length(start ^ *opposite) < bound {
                    return true;
                }
            }
        }
        [word, rest @ ..] => {
            for level in 0..L::LEVELS {
                let next = L::add(start, L::product(n, level, *word));
                if shorter::<L>(n, rest, leaves, next, bound) {
                    return true;
                }
            }
        }
    }
    false
}
