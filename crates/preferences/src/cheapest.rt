// The cheaper word is better, by the costs of its factors.
ghost use Rattle.std.specs.Prelude.{◌≡◌, ℕ, ◌<◌, nat_le, slice_index};
ghost use Rattle.levels.specs.Words.{digits};
ghost use Rattle.preferences.specs.Built.{cheapest, cost, cost_score};
ghost use Rattle.preferences.specs.Sums.{AreSums, mask_bits, mask_order, used};
ghost use Rattle.preferences.specs.Verdicts.{verdict_of};
ghost use Rattle.std.proofs.Common.{rules};

use crate::preference::{Preference, Scored, Verdict, judged, smaller};
use crate::sum::Sum;
use levels::{Levels, Span};

// No word has more factors.
const FACTORS: usize = 32;

// A mask of factors has 6 parts, of 6 bits each.
const PARTS: usize = 6;

// A part has 64 values.
const SUMS: usize = 64 * PARTS;

// The low bit of each digit of two bits.
const LOW: u64 = 0x5555_5555_5555_5555;

/// Cheaper words are better. Sums of costs are worked out once, for each value of each part of a mask of factors.
#[derive(Clone, Copy)]
pub struct Cheapest {
    costs: [u16; FACTORS],
    // The sums where a digit takes one bit, and where it takes two.
    one_bit: [u32; SUMS],
    two_bits: [u32; SUMS],
    ghost small: { (i : ℕ) → slice_index costs i < 65536 },
    ghost one: { AreSums (mask_order 1 costs) one_bit },
    ghost two: { AreSums (mask_order 2 costs) two_bits },
}

impl Cheapest {
    /// By the cost of each factor, factor 1 first.
    #[inline(never)]
    pub fn new(costs: [u16; FACTORS]) -> Cheapest
        ensures { result.costs ≡ costs }
    {
        Cheapest {
            costs,
            one_bit: sums_of(&costs),
            two_bits: sums_of(&by_turns(&costs)),
        }
    }

    // The sum of the costs of the factors whose digit is not 0, among 32.
    #[inline]
    fn total<L: Levels>(&self, word: u64) -> u32
        ensures { result ≡ cost self.now.costs (digits L.model 32 word) }
    {
        let sums = if L::BITS == 1 {
            &self.one_bit
        } else {
            &self.two_bits
        };
        let mask = mask_of::<L>(word);
        let mut total = 0;
        for k in 0..PARTS {
            total += sums[64 * k + ((mask >> (6 * k)) & 63) as usize];
        }
        total
    }

    // Of two words, the cheaper one.
    #[inline]
    fn cheaper<L: Levels>(&self, a: u64, b: u64) -> Verdict
        ensures { let first = cost self.now.costs (digits L.model 32 a) in
            let second = cost self.now.costs (digits L.model 32 b) in
            result ≡ verdict_of (nat_le first second) (nat_le second first) }
    {
        smaller(u64::from(self.total::<L>(a)), u64::from(self.total::<L>(b)))
    }
}

impl<L: Levels> Preference<L> for Cheapest {
    ghost good = { λ self. cheapest L.model self.costs };

    ghost lawful = { Prim.search rules };

    // No sums of the base list are needed.
    fn compare(&self, n: u8, base: &[u64], a: u64, b: u64) -> Verdict {
        if judged::<L>(n, base, a, b) {
            self.cheaper::<L>(a, b)
        } else {
            Verdict::Equal
        }
    }

    #[inline]
    fn prefer(&self, _base: &Span<L>, a: u64, b: u64) -> Verdict {
        self.cheaper::<L>(a, b)
    }

    #[inline]
    fn prefer_to_sum(&self, _base: &Span<L>, word: u64, sum: Sum) -> Verdict {
        let other = self.total::<L>(sum.places());
        smaller(u64::from(self.total::<L>(word)), u64::from(other))
    }
}

impl<L: Levels> Scored<L> for Cheapest {
    ghost points = { λ self. cost_score L.model self.costs };

    fn score(&self, n: u8, word: u64) -> u32 {
        if L::legal(n, word) {
            self.total::<L>(word)
        } else {
            0
        }
    }
}

// The mask, in `mask_order`, of the factors whose digit is not 0: the code itself with one bit a digit.
#[inline]
fn mask_of<L: Levels>(word: u64) -> u64
    ensures { mask_bits result ≡ mask_order L.model.bits (used L.model word) }
{
    if L::BITS == 1 {
        word
    } else {
        let any = (word | word >> 1) & LOW;
        any | any >> 31
    }
}

// The costs in the order of a mask of digits of two bits.
fn by_turns(costs: &[u16; FACTORS]) -> [u16; FACTORS]
    ensures { result ≡ mask_order 2 costs.now }
{
    let mut turned = [0; FACTORS];
    for i in 0..FACTORS {
        turned[i] = costs[i / 2 + i % 2 * 16];
    }
    turned
}

// The sums for each value of each part of a mask whose bits stand for factors of these costs, and behind them for none.
#[inline(never)]
fn sums_of(costs: &[u16; FACTORS]) -> [u32; SUMS]
    ensures { AreSums costs.now result }
{
    let mut sums = [0; SUMS];
    for part in 0..PARTS {
        for bit in 0..6 {
            let cost = costs.get(6 * part + bit).map_or(0, |cost| u32::from(*cost));
            let more = 1 << bit;
            for rest in 0..more {
                sums[64 * part + more + rest] = sums[64 * part + rest] + cost;
            }
        }
    }
    sums
}
