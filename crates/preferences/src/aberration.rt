// Least aberration: at the smallest length where the alias sets differ in their number of words, fewer is better.
ghost use Rattle.std.specs.Prelude.{◌≡◌, ℕ, ◌<◌, ◌≤◌, List, true, nat_le, slice_index};
ghost use Rattle.levels.specs.Space.{Word};
ghost use Rattle.levels.specs.Words.{word_length};
ghost use Rattle.preferences.specs.Relation.{fair};
ghost use Rattle.preferences.specs.Built.{least_aberration, no_more};
ghost use Rattle.preferences.specs.Candidates.{IsReady, IsTally};
ghost use Rattle.preferences.specs.Verdicts.{verdict_of};
ghost use Rattle.preferences.specs.Counts.{least_aberration_laws};

use crate::candidate::Candidate;
use crate::preference::{Preference, Verdict, judged, smaller};
use crate::sum::Sum;
use levels::span::Tally;
use levels::{Levels, Span};

#[derive(Clone, Copy)]
pub struct LeastAberration;

impl<L: Levels> Preference<L> for LeastAberration {
    ghost good = { λ self. least_aberration L.model };

    // the order of counts
    ghost lawful = { λ self. least_aberration_laws L.model L.lawful };

    fn equates_aliases(&self) -> bool {
        true
    }

    // Without base words no sums are needed.
    fn compare(&self, n: u8, base: &[u64], a: u64, b: u64) -> Verdict {
        if !judged::<L>(n, base, a, b) {
            Verdict::Equal
        } else if base.is_empty() {
            longer::<L>(a, b)
        } else {
            fewer_of_words(&Span::<L>::new(n, base), a, b)
        }
    }

    #[inline(always)]
    fn prefer(&self, base: &Span<L>, a: u64, b: u64) -> Verdict {
        if base.words().is_empty() {
            longer::<L>(a, b)
        } else {
            fewer_of_words(base, a, b)
        }
    }

    #[inline(always)]
    fn prefer_to_sum(&self, base: &Span<L>, word: u64, sum: Sum) -> Verdict {
        if base.words().is_empty() {
            longer::<L>(word, sum.places())
        } else {
            fewer_of_words(base, word, sum.word::<L>())
        }
    }

    fn ready(&self, base: &Span<L>, word: u64) -> Candidate {
        if base.words().is_empty() {
            return Candidate::new(word);
        }
        Candidate {
            word,
            tally: Some(base.tally(word)),
        }
    }

    #[inline(always)]
    fn prefer_ready(&self, base: &Span<L>, a: &Candidate, b: &Candidate) -> Verdict {
        if base.words().is_empty() {
            longer::<L>(a.word, b.word)
        } else {
            fewer_ready(base, a, b)
        }
    }
}

// Of two words, each its own only alias: the first length of which there is one, and of the other none, is the shorter one's.
#[inline]
fn longer<L: Levels>(a: u64, b: u64) -> Verdict
    ensures { let first = word_length L.model a in
        let second = word_length L.model b in
        result ≡ verdict_of (nat_le second first) (nat_le first second) }
{
    smaller(u64::from(L::length(b)), u64::from(L::length(a)))
}

// Of two words, the one whose aliases have fewer of the first length in which they differ.
#[inline(never)]
fn fewer_of_words<L: Levels>(base: &Span<L>, a: u64, b: u64) -> Verdict
    ensures { let n = base.now.factors in
        let words = base.now.words.now in
        let good = least_aberration L.model in
        fair L.model n words ≡ true →
        Word L.model n a →
        Word L.model n b →
        result ≡ verdict_of (good n words a b) (good n words b a) }
{
    fewer(&base.tally(a), &base.tally(b))
}

// The same of two candidates, whose tallies are counted where they are not known.
#[inline(never)]
fn fewer_ready<L: Levels>(base: &Span<L>, a: &Candidate, b: &Candidate) -> Verdict
    ensures { let n = base.now.factors in
        let words = base.now.words.now in
        let good = least_aberration L.model in
        fair L.model n words ≡ true →
        Word L.model n a.now.word →
        Word L.model n b.now.word →
        IsReady L.model n words a.now →
        IsReady L.model n words b.now →
        result ≡ verdict_of
        (good n words a.now.word b.now.word)
        (good n words b.now.word a.now.word) }
{
    match (&a.tally, &b.tally) {
        (Some(first), Some(second)) => fewer(first, second),
        (Some(first), None) => fewer_than(base, first, b.word),
        (None, Some(second)) => fewer(&base.tally(a.word), second),
        (None, None) => fewer(&base.tally(a.word), &base.tally(b.word)),
    }
}

// Of a tally and a word, whose aliases are counted where none is shorter than those of the tally.
fn fewer_than<L: Levels>(base: &Span<L>, first: &Tally, word: u64) -> Verdict
    ensures { let n = base.now.factors in
        let words = base.now.words.now in
        fair L.model n words ≡ true →
        Word L.model n word →
        (second : List ℕ) →
        IsTally L.model n words word second →
        result ≡ verdict_of (no_more first.now second) (no_more second first.now) }
{
    if base.any_shorter(word, shortest_length(first)) {
        Verdict::First
    } else {
        fewer(first, &base.tally(word))
    }
}

// The smallest length of which there are some, or 33.
fn shortest_length(tally: &Tally) -> u8
    ensures few { result ≤ 33 }
    ensures none { (i : ℕ) → i < result → slice_index tally.now i ≡ 0 }
{
    let mut length = 0;
    for count in tally {
        if *count > 0 {
            break;
        }
        length += 1;
    }
    length
}

// Of two tallies, the one that is smaller where they first differ.
fn fewer(a: &Tally, b: &Tally) -> Verdict
    ensures { result ≡ verdict_of (no_more a.now b.now) (no_more b.now a.now) }
{
    Verdict::from(a.cmp(b))
}
