// The wordlength pattern of the words that a list generates, and their resolution.
ghost use Rattle.std.specs.Prelude.{◌≡◌, ℕ, suc, ◌-◌, ◌^◌, ◌<◌, ◌≤◌, min, [], ◌∷◌, length, take, slice_index, IsNone, ◌↔◌};
ghost use Rattle.levels.specs.Generated.{generated};
ghost use Rattle.aliasing.specs.Pattern.{count, pattern as Pattern, resolution as Resolution, Divides, ResolutionLaw};

use levels::{Levels, Span};
use std::array;

/// How many lengths there are: a word has at most 32 factors.
pub const LENGTHS: usize = 32;

/// The counts of lengths 1 to 32 of what at most 16 words generate. The number of words is a premise, here and below: a slice of any
/// length is taken, and a type with a limit would ask more. The array is full, with 0 above n.
pub fn pattern<L: Levels>(n: u8, words: &[u64]) -> [u32; LENGTHS]
    ensures counts { length words.now ≤ 16 → (i : ℕ) → i < 32 → slice_index result i ≡ count L.Levels.model (generated L.Levels.model n words.now) (suc i) }
    ensures front { length words.now ≤ 16 → n ≤ 32 → take n result ≡ Pattern L.Levels.model n (generated L.Levels.model n words.now) }
    ensures exact { Divides L.Levels.model (generated L.Levels.model n words.now) }
{
    let all = Span::<L>::new(n, words).tally(0);
    let repeats = all[0];
    if repeats == 0 {
        return [0; LENGTHS];
    }
    let multiples = u64::from(L::LEVELS) - 1;
    // Many counts are 0, and a division takes long.
    array::from_fn(|i| match all[i + 1] {
        0 => 0,
        amount => fitting(amount / repeats / multiples),
    })
}

// A number in 32 bits: the largest of them where it takes more, as it never does of 16 words.
fn fitting(amount: u64) -> u32
    ensures { result ≡ min amount (2 ^ 32 - 1) }
{
    u32::try_from(amount).unwrap_or(u32::MAX)
}

/// The least length with a positive count, and that count; absent exactly where the words generate code 0 alone.
pub fn resolution<L: Levels>(n: u8, words: &[u64]) -> Option<(u32, u32)>
    ensures least { let all = generated L.model n words.now in
        length words.now ≤ 16 → result ≡ Resolution L.model n all }
    ensures law { let all = generated L.model n words.now in
        length words.now ≤ 16 → ResolutionLaw L.model n all result }
    ensures absent { let all = generated L.model n words.now in
        length words.now ≤ 16 → (IsNone result ↔ (all ≡ 0 ∷ [])) }
{
    let counts = pattern::<L>(n, words);
    for (place, count) in counts.iter().enumerate() {
        if *count > 0 {
            return Some((place as u32 + 1, *count));
        }
    }
    None
}
