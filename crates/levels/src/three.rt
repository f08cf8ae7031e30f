// Three levels: two bits a factor, and the sum is modulo 3.
ghost use Rattle.std.specs.Prelude.{refl};
ghost use Rattle.levels.specs.Arithmetic.{three};
ghost use Rattle.levels.specs.Lawful.{lawful_three};

use crate::arithmetic::{Levels, within};

// the low bit of each digit
const LOW: u64 = 0x5555_5555_5555_5555;

#[derive(Clone, Copy)]
pub struct ThreeLevels;

impl Levels for ThreeLevels {
    ghost model = { three };

    ghost LEVELS = { 3 };

    const LEVELS: u8 = 3;

    ghost BITS = { 2 };

    const BITS: u8 = 2;

    ghost LIMIT = { 10 };

    const LIMIT: usize = 10;

    // the model obeys the laws
    ghost lawful = { lawful_three };

    ghost levels = { refl };

    ghost bits = { refl };

    ghost limit = { refl };

    fn legal(n: u8, word: u64) -> bool {
        within(Self::BITS, n, word) && word & (word >> 1) & LOW == 0
    }

    /// Less 3 in each digit whose sum reaches 3: both digits have a high bit, or one has it and one a low bit.
    fn add(a: u64, b: u64) -> u64 {
        let any = a | b;
        let reached = ((a & b) >> 1 | any & (any >> 1)) & LOW;
        a.wrapping_add(b).wrapping_sub(reached * 3)
    }

    fn product(n: u8, level: u8, word: u64) -> u64 {
        if !Self::legal(n, word) {
            return 0;
        }
        match level {
            1 => word,
            2 => Self::add(word, word),
            _ => 0,
        }
    }

    fn length(word: u64) -> u8 {
        ((word | word >> 1) & LOW).count_ones() as u8
    }
}
