// The shorter word is better.
ghost use Rattle.std.specs.Prelude.{◌≡◌, nat_le};
ghost use Rattle.levels.specs.Words.{word_length};
ghost use Rattle.preferences.specs.Built.{shortest, length_score};
ghost use Rattle.preferences.specs.Verdicts.{verdict_of};
ghost use Rattle.std.proofs.Common.{rules};

use crate::preference::{Preference, Scored, Verdict, judged, smaller};
use crate::sum::Sum;
use levels::{Levels, Span};

#[derive(Clone, Copy)]
pub struct Shortest;

impl<L: Levels> Preference<L> for Shortest {
    ghost good = { λ self. shortest L.model };

    ghost lawful = { Prim.search rules };

    // No sums of the base list are needed.
    fn compare(&self, n: u8, base: &[u64], a: u64, b: u64) -> Verdict {
        if judged::<L>(n, base, a, b) {
            shorter::<L>(a, b)
        } else {
            Verdict::Equal
        }
    }

    #[inline]
    fn prefer(&self, _base: &Span<L>, a: u64, b: u64) -> Verdict {
        shorter::<L>(a, b)
    }

    #[inline]
    fn prefer_to_sum(&self, _base: &Span<L>, word: u64, sum: Sum) -> Verdict {
        smaller(
            u64::from(L::length(word)),
            u64::from(L::length(sum.places())),
        )
    }
}

impl<L: Levels> Scored<L> for Shortest {
    ghost points = { λ self. length_score L.model };

    fn score(&self, n: u8, word: u64) -> u32 {
        if L::legal(n, word) {
            u32::from(L::length(word))
        } else {
            0
        }
    }
}

// Of two words, the shorter one.
#[inline]
fn shorter<L: Levels>(a: u64, b: u64) -> Verdict
    ensures { let first = word_length L.model a in
        let second = word_length L.model b in
        result ≡ verdict_of (nat_le first second) (nat_le second first) }
{
    smaller(u64::from(L::length(a)), u64::from(L::length(b)))
}
