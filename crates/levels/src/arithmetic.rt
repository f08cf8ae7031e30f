// The arithmetic of levels as an interface.
ghost use Rattle.std.specs.Prelude.{◌≡◌, ◌*◌, ◌^◌, ◌&&◌, ℕ, nat_le, nat_lt};
ghost use Rattle.levels.specs.Arithmetic.{Arithmetic, Lawful};
ghost use Rattle.levels.specs.Words.{legal, code_sum, word_length, word_multiple, word_sum};

/// No arithmetic allows a plan more words: with two levels, 16 words generate 65,536, the most that a plan may.
pub const MOST: usize = 16;

/// Levels of a factor: how many there are, how words of them are packed into codes, and how words are added.
pub trait Levels {
    // what the levels and their packing are
    ghost model: { Arithmetic };

    // the number of levels, s
    ghost LEVELS: { ℕ };

    /// The number of levels.
    const LEVELS: u8;

    // the bits of a digit
    ghost BITS: { ℕ };

    /// The bits that a digit takes in a code.
    const BITS: u8;

    // the limit of words in a plan
    ghost LIMIT: { ℕ };

    /// The most words that a plan may have.
    const LIMIT: usize;

    /// Whether a code is legal for n factors.
    fn legal(n: u8, word: u64) -> bool
        ensures { result ≡ legal model n word };

    /// The sum of two codes, digit by digit, whatever their digits.
    fn add(a: u64, b: u64) -> u64
        ensures { result ≡ code_sum model a b };

    /// A word of n factors times a level; code 0 where the level is not below s or the word is illegal.
    fn product(n: u8, level: u8, word: u64) -> u64
        ensures { result ≡ word_multiple model n level word };

    /// How many digits of a code are not 0.
    fn length(word: u64) -> u8
        ensures { result ≡ word_length model word };

    /// The sum of two words of n factors; code 0 where one is illegal.
    fn sum(n: u8, a: u64, b: u64) -> u64
        ensures { result ≡ word_sum model n a b }
    {
        if Self::legal(n, a) && Self::legal(n, b) {
            Self::add(a, b)
        } else {
            0
        }
    }

    // the digits form a field, and a digit takes 1 bit with two levels, else 2
    ghost lawful: { Lawful model };

    // the number of levels is the model's
    ghost levels: { LEVELS ≡ model.s };

    // the bits of a digit are the model's
    ghost bits: { BITS ≡ model.bits };

    // the limit of words is the model's
    ghost limit: { LIMIT ≡ model.limit };
}

// Whether there are 1 to 32 factors of so many bits, and a code has no bit beyond them.
pub(crate) fn within(width: u8, n: u8, code: u64) -> bool
    ensures { result ≡ ((nat_le 1 n && nat_le n 32) && nat_lt code (2 ^ (width * n))) }
{
    let bits = u32::from(width) * u32::from(n);
    (1..=32).contains(&n) && code.checked_shr(bits).unwrap_or(0) == 0
}
