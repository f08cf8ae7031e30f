// Two preferences, of which the second decides where the first finds the words equal.
ghost use Rattle.preferences.specs.Built.{first_then_second};
ghost use Rattle.preferences.specs.Laws.{first_then_second_laws};

use crate::candidate::Candidate;
use crate::preference::{Preference, Verdict};
use crate::sum::Sum;
use levels::{Levels, Span};

#[derive(Clone, Copy)]
pub struct FirstThenSecond<P, Q> {
    pub first: P,
    pub second: Q,
}

impl<L: Levels, P: Preference<L>, Q: Preference<L>> Preference<L> for FirstThenSecond<P, Q> {
    ghost good = { λ self. first_then_second (P.good self.first) (Q.good self.second) };

    // the laws of the two preferences
    ghost lawful = { λ self.
        let one = P.good self.first in
        let other = Q.good self.second in
        first_then_second_laws L.model one other (P.lawful self.first) (Q.lawful self.second) };

    fn equates_aliases(&self) -> bool {
        self.first.equates_aliases() && self.second.equates_aliases()
    }

    // Each preference knows whether it needs the sums of the base list.
    fn compare(&self, n: u8, base: &[u64], a: u64, b: u64) -> Verdict {
        match self.first.compare(n, base, a, b) {
            Verdict::Equal => self.second.compare(n, base, a, b),
            decided => decided,
        }
    }

    #[inline(always)]
    fn prefer(&self, base: &Span<L>, a: u64, b: u64) -> Verdict {
        match self.first.prefer(base, a, b) {
            Verdict::Equal => self.second.prefer(base, a, b),
            decided => decided,
        }
    }

    #[inline(always)]
    fn prefer_to_sum(&self, base: &Span<L>, word: u64, sum: Sum) -> Verdict {
        match self.first.prefer_to_sum(base, word, sum) {
            Verdict::Equal => self.second.prefer_to_sum(base, word, sum),
            decided => decided,
        }
    }

    // What the first works out is asked of every word, what the second does of equal words alone.
    fn ready(&self, base: &Span<L>, word: u64) -> Candidate {
        self.first.ready(base, word)
    }

    #[inline(always)]
    fn prefer_ready(&self, base: &Span<L>, a: &Candidate, b: &Candidate) -> Verdict {
        match self.first.prefer_ready(base, a, b) {
            Verdict::Equal => self.second.prefer_ready(base, a, b),
            decided => decided,
        }
    }
}
