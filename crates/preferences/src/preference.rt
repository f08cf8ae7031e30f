// A preference as an interface: one question about two words.
ghost use Rattle.std.specs.Prelude.{◌≡◌, ℕ, true, false, ◌&&◌, nat_le};
ghost use Rattle.levels.specs.Words.{legal, word_sum};
ghost use Rattle.levels.specs.Space.{Word};
ghost use Rattle.preferences.specs.Relation.{Relation, PreferenceLaws, EqualAliases, all_legal, fair};
ghost use Rattle.std.specs.Bool.{OnTrue};
ghost use Rattle.preferences.specs.Candidates.{IsReady, IsSum};
ghost use Rattle.preferences.specs.Verdicts.{of_order, verdict, verdict_of, turned, Scores};

use crate::candidate::Candidate;
use crate::sum::Sum;
use levels::{Levels, Span};
use std::cmp::Ordering;

/// Which of two words is better. An own enum: its names are the public ones of the field, and an Ordering converts to it.
#[derive(Clone, Copy, PartialEq, Eq, Debug)]
pub enum Verdict {
    First,
    Second,
    Equal,
}

// What is less is better.
impl From<Ordering> for Verdict {
    ghost from_gives = { λ order verdict. verdict ≡ of_order order };

    fn from(order: Ordering) -> Verdict {
        match order {
            Ordering::Less => Verdict::First,
            Ordering::Greater => Verdict::Second,
            Ordering::Equal => Verdict::Equal,
        }
    }
}

impl Verdict {
    /// The verdict on the two words in the other order.
    pub fn turned(self) -> Verdict
        ensures { result ≡ turned self }
    {
        match self {
            Verdict::First => Verdict::Second,
            Verdict::Second => Verdict::First,
            Verdict::Equal => Verdict::Equal,
        }
    }
}

pub trait Preference<L: Levels> {
    // "at least as good", for n factors and a base list of words
    ghost good: { Self → Relation };

    /// Which of two codes is better for n factors and a base list of words. Equal where a code is illegal, or nothing can be judged by
    /// the base list: it has an illegal word, or more words than the limit.
    fn compare(&self, n: u8, base: &[u64], a: u64, b: u64) -> Verdict
        ensures { result ≡ verdict L.model (good self.now) n base.now a b }
    {
        if !judged::<L>(n, base, a, b) {
            return Verdict::Equal;
        }
        self.prefer(&Span::new(n, base), a, b)
    }

    /// The same over a base list that is ready for many questions, where every code is known to be legal and the list to be within
    /// the limit, so that nothing has to be tested. Of other codes and lists it may say anything.
    /// Legal words are premises: a type that carried this would be of one number of factors, and each caller would make two of them.
    fn prefer(&self, base: &Span<L>, a: u64, b: u64) -> Verdict
        ensures { let n = base.now.factors in
            let words = base.now.words.now in
            fair L.model n words ≡ true →
            Word L.model n a →
            Word L.model n b →
            result ≡ verdict_of (good self.now n words a b) (good self.now n words b a) };

    /// A word that many questions are asked of, with whatever these would else work out again and again.
    fn ready(&self, base: &Span<L>, word: u64) -> Candidate
        ensures word { result.word ≡ word }
        ensures ready { IsReady L.model base.now.factors base.now.words.now result }
    {
        Candidate::new(word)
    }

    /// What `prefer` says of two candidates.
    #[inline]
    fn prefer_ready(&self, base: &Span<L>, a: &Candidate, b: &Candidate) -> Verdict
        ensures { let n = base.now.factors in
            let words = base.now.words.now in
            fair L.model n words ≡ true →
            Word L.model n a.now.word →
            Word L.model n b.now.word →
            IsReady L.model n words a.now →
            IsReady L.model n words b.now →
            result ≡ verdict_of
            (good self.now n words a.now.word b.now.word)
            (good self.now n words b.now.word a.now.word) }
    {
        self.prefer(base, a.word, b.word)
    }

    /// What `prefer` says of a word and a sum.
    #[inline]
    fn prefer_to_sum(&self, base: &Span<L>, word: u64, sum: Sum) -> Verdict
        ensures { let n = base.now.factors in
            let words = base.now.words.now in
            let second = word_sum L.model n sum.first sum.second in
            fair L.model n words ≡ true →
            Word L.model n word →
            IsSum L.model n sum →
            result ≡ verdict_of (good self.now n words word second) (good self.now n words second word) }
    {
        self.prefer(base, word, sum.word::<L>())
    }

    /// Whether words of one alias set over the base list are known to be equal, so that a search may judge one word of each set.
    fn equates_aliases(&self) -> bool
        ensures { OnTrue result (EqualAliases L.model (good self.now)) }
    {
        false
    }

    ghost lawful: { (self : Self) → PreferenceLaws L.model (good self) };
}

/// A preference that also scores words: the smaller score is better.
pub trait Scored<L: Levels>: Preference<L> {
    ghost points: { Self → ℕ → ℕ → ℕ };

    /// The score of a word of n factors, from 0 to 2,097,120; 0 for an illegal code.
    fn score(&self, n: u8, word: u64) -> u32
        ensures value { result ≡ points self.now n word }
        ensures ranks { Scores L.model (Self.Preference.good self.now) (points self.now) };
}

/// Whether a preference has anything to judge: every code is legal and the base list is within the limit.
pub fn judged<L: Levels>(n: u8, base: &[u64], a: u64, b: u64) -> bool
    ensures { result ≡ (fair L.model n base.now && (legal L.model n a && legal L.model n b)) }
{
    fair::<L>(n, base) && L::legal(n, a) && L::legal(n, b)
}

/// Whether preferences judge by a base list: every word is legal, and there are no more than the limit.
pub fn fair<L: Levels>(n: u8, base: &[u64]) -> bool
    ensures { result ≡ fair L.model n base.now }
{
    base.len() <= L::LIMIT && all_legal::<L>(n, base)
}

/// Whether every word of a list is legal.
pub fn all_legal<L: Levels>(n: u8, words: &[u64]) -> bool
    ensures { result ≡ all_legal L.model n words.now }
{
    words.iter().all(|word| L::legal(n, *word))
}

/// The smaller of two numbers is better.
#[inline]
pub fn smaller(a: u64, b: u64) -> Verdict
    ensures { result ≡ verdict_of (nat_le a b) (nat_le b a) }
{
    if a < b {
        Verdict::First
    } else if b < a {
        Verdict::Second
    } else {
        Verdict::Equal
    }
}
