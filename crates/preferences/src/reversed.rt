// A preference turned round: what was better is worse.
ghost use Rattle.preferences.specs.Built.{reversed};
ghost use Rattle.preferences.specs.Laws.{reversed_laws};

use crate::candidate::Candidate;
use crate::preference::{Preference, Verdict};
use crate::shortest::Shortest;
use crate::sum::Sum;
use levels::{Levels, Span};

#[derive(Clone, Copy)]
pub struct Reversed<P>(pub P);

/// The longer word is better.
pub type Longest = Reversed<Shortest>;

impl<L: Levels, P: Preference<L>> Preference<L> for Reversed<P> {
    ghost good = { λ self. reversed (P.good self.0) };

    // the laws of the preference
    ghost lawful = { λ self. reversed_laws L.model (P.good self.0) (P.lawful self.0) };

    fn equates_aliases(&self) -> bool {
        self.0.equates_aliases()
    }

    // The preference knows whether it needs the sums of the base list.
    fn compare(&self, n: u8, base: &[u64], a: u64, b: u64) -> Verdict {
        self.0.compare(n, base, a, b).turned()
    }

    #[inline]
    fn prefer(&self, base: &Span<L>, a: u64, b: u64) -> Verdict {
        self.0.prefer(base, a, b).turned()
    }

    #[inline]
    fn prefer_to_sum(&self, base: &Span<L>, word: u64, sum: Sum) -> Verdict {
        self.0.prefer_to_sum(base, word, sum).turned()
    }

    fn ready(&self, base: &Span<L>, word: u64) -> Candidate {
        self.0.ready(base, word)
    }

    #[inline]
    fn prefer_ready(&self, base: &Span<L>, a: &Candidate, b: &Candidate) -> Verdict {
        self.0.prefer_ready(base, a, b).turned()
    }
}
