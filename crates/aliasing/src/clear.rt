// Clear pairs of factors.
ghost use Rattle.std.specs.Prelude.{◌≡◌, ℕ, ◌+◌, ◌-◌, ◌*◌, ◌^◌, ◌<◌, ◌≤◌, ◌≢◌, ◌⊎◌, [], false, length, slice_index, slice_index_or, true, MatchOption};
ghost use Rattle.bounded.specs.Items.{items_of};
ghost use Rattle.levels.specs.Rows.{basis_rows};
ghost use Rattle.aliasing.specs.Buckets.{bucket_of, Chained, IsOther, Long, NoOther, Told};
ghost use Rattle.aliasing.specs.Clear.{clear_bytes, ones_in};
ghost use Rattle.aliasing.specs.Pairs.{pair_bytes};
ghost use Rattle.aliasing.specs.Short.{one_letter, sum_at, two_letters, LeastAliases, Own, Settled, Short, Stands};

use bounded::Bounded;
use levels::{Basis, Levels, TwoLevels};

// 32 factors have 496 pairs.
const PAIRS: usize = 496;

// The word of factors i and j, from 1 and i before j, has place 32 · i + j − 1; that of factor j alone has the place with 0 for i.
const PLACES: usize = 1024;

// Least aliases fall into so many buckets, by the highest bits of a product that spreads them.
const BUCKETS: usize = 1024;

const SPREAD: u64 = 0x9e37_79b9_7f4a_7c15;

/// A byte for every pair: factor 1 with each later factor, then factor 2, and so on. It is 1 where the pair is clear, else 0.
#[derive(Clone, Copy)]
pub struct ClearPairs {
    bytes: Bounded<u8, PAIRS>,
}

impl ClearPairs {
    /// One byte for each pair.
    pub fn bytes(&self) -> &[u8]
        ensures { result.now ≡ pair_bytes self.now }
    {
        self.bytes.as_slice()
    }

    /// The number of ones: how many pairs are clear.
    pub fn ones(&self) -> usize
        ensures { result ≡ ones_in (pair_bytes self.now) }
    {
        self.bytes().iter().map(|byte| usize::from(*byte)).sum()
    }
}

/// Which pairs of n factors are clear: no word of one letter and no other of two is in the alias set. Nothing for more than 32 factors.
pub fn clear(n: u8, words: &[u64]) -> ClearPairs
    ensures pairs { n ≤ 32 → pair_bytes result ≡ clear_bytes n words.now }
    ensures none { 32 < n → pair_bytes result ≡ [] }
{
    let mut bytes = Bounded::new(0);
    if n <= 32 {
        push_bytes(n, words, &mut bytes);
    }
    ClearPairs { bytes }
}

// One byte for each pair of at most 32 factors, into an empty list, filled in place as it is large. The range of n is asked, as `clear` has
// tested it. The bytes of all words stand in an array, as memory that `mark_others` is lent: those of factor i with each later one from
// place 33 · i on.
fn push_bytes(n: u8, words: &[u64], bytes: &mut Bounded<u8, PAIRS>)
    requires few { n ≤ 32 }
    requires empty { items_of bytes.old ≡ [] }
    ensures { items_of bytes.new ≡ clear_bytes n words.now }
{
    let mut basis = Basis::new();
    basis.admit_all::<TwoLevels>(n, words);
    let least = least_aliases(n, &basis);
    let mut alone = [1; PLACES];
    let factors = usize::from(n);
    mark_others(&least[..factors + 1], &mut alone);
    for i in 1..factors {
        bytes.extend(&alone[33 * i..32 * i + factors]);
    }
}

// The least aliases of code 0 and of the letters of 32 factors, with the premises of `Basis::reduce`. By places, from 0.
fn least_aliases(n: u8, basis: &Basis) -> [u64; 33]
    ensures { LeastAliases n (basis_rows basis.now) result }
{
    let mut least = [0; 33];
    for i in 0..33 {
        least[i] = basis.reduce::<TwoLevels>(n, letter(i));
    }
    least
}

// The word of the letter of a factor, from 1; code 0 for 0.
fn letter(factor: usize) -> u64
    requires { factor ≤ 64 }
    ensures { result ≡ one_letter factor }
{
    if factor == 0 { 0 } else { 1 << (factor - 1) }
}

// Of one byte for each word of one letter or two, all 1, those become 0 whose word shares its least alias.
fn mark_others(least: &[u64], alone: &mut [u8])
    requires few { length least.now ≤ 33 }
    requires settled { Settled least.now }
    requires room { length alone.old ≡ 1024 }
    requires ones { (p : ℕ) → p < 1024 → slice_index alone.old p ≡ 1 }
    ensures { Told least.now alone.new }
{
    let own = own_letters(least);
    let mut last = [0; BUCKETS];
    let mut before = [0; PLACES];
    for i in 0..least.len() {
        for j in i + 1..least.len() {
            if own[i] && own[j] {
                continue;
            }
            if let Some(other) = find_other(least, i, j, &mut last, &mut before) {
                alone[other] = 0;
                alone[32 * i + j - 1] = 0;
            }
        }
    }
}

// Which letters are their own least aliases, and that code 0 is. The sum of two such is its own.
fn own_letters(least: &[u64]) -> [bool; 33]
    requires { length least.now ≤ 33 }
    ensures { (k : ℕ) → k < length least.now → slice_index_or result k false ≡ true → slice_index least.now k ≡ one_letter k }
{
    let mut own = [false; 33];
    for k in 0..least.len() {
        own[k] = least[k] == letter(k);
    }
    own
}

// The place of another word with the least alias of the word of factors i and j: the least alias itself, or one that was met. A word
// that is its own least alias meets none; the others come to it.
fn find_other(
    least: &[u64],
    i: usize,
    j: usize,
    last: &mut [u16],
    before: &mut [u16],
) -> Option<usize>
    requires few { length least.now ≤ 33 }
    requires settled { Settled least.now }
    requires first { i < j }
    requires second { j < length least.now }
    requires chained { Chained least.now (32 * i + j - 1) last.old before.old }
    ensures chained { Chained least.now (32 * i + j) last.new before.new }
    ensures found { MatchOption result (NoOther least.now (32 * i + j - 1)) (IsOther least.now (32 * i + j - 1)) }
{
    let sum = TwoLevels::add(least[i], least[j]);
    let at = 32 * i + j - 1;
    if let Some(place) = place_of(sum) {
        return if place == at { None } else { Some(place) };
    }
    meet(least, at, sum, last, before)
}

// A word meets the earlier ones of its bucket, from the last, until one has the same least alias. The words of a bucket are in a chain, by
// their places from 1; 0 is no place, and no Option, so that a table of zeros is one of empty buckets. By places, since nothing is
// allocated: the kit's maps are on the heap.
fn meet(least: &[u64], at: usize, sum: u64, last: &mut [u16], before: &mut [u16]) -> Option<usize>
    requires few { length least.now ≤ 33 }
    requires long { Long least.now at }
    requires sum { sum ≡ sum_at least.now at }
    requires chained { Chained least.now at last.old before.old }
    ensures chained { Chained least.now (at + 1) last.new before.new }
    ensures found { MatchOption result ((p : ℕ) → p < at → Long least.now p → sum_at least.now p ≢ sum) (λ p. (p < at) × Long least.now p × (sum_at least.now p ≡ sum)) }
{
    let bucket = bucket(sum);
    let earlier = last[bucket];
    before[at] = earlier;
    last[bucket] = at as u16 + 1;
    let mut place = usize::from(earlier);
    while place > 0 {
        if sum_of(least, place - 1) == sum {
            return Some(place - 1);
        }
        place = usize::from(before[place - 1]);
    }
    None
}

// Where the words with a least alias are in a table of buckets.
fn bucket(least: u64) -> usize
    ensures { result ≡ bucket_of least }
{
    (least.wrapping_mul(SPREAD) >> 54) as usize
}

// The least alias of the word at a place: the sum of those of its letters.
fn sum_of(least: &[u64], place: usize) -> u64
    requires { Stands least.now place }
    ensures { result ≡ sum_at least.now place }
{
    TwoLevels::add(least[place / 32], least[place % 32 + 1])
}

// The place of a word of one letter or two.
fn place_of(word: u64) -> Option<usize>
    ensures { MatchOption result (Short word → ⊥) (λ p. (i : ℕ) × (j : ℕ) × (i < j) × (two_letters i j ≡ word) × (p ≡ 32 * i + j - 1)) }
{
    let letters = TwoLevels::length(word);
    if letters == 0 || letters > 2 {
        return None;
    }
    let j = top(word);
    let i = top(word - letter(j));
    Some(32 * i + j - 1)
}

// The last factor of a word, from 1; 0 for code 0.
fn top(word: u64) -> usize
    ensures low { one_letter result ≤ word }
    ensures high { word < 2 ^ result }
    ensures few { result ≤ 64 }
{
    (64 - word.leading_zeros()) as usize
}
