// Two levels: one bit a factor, and the sum is exclusive or.
ghost use Rattle.std.specs.Prelude.{refl};
ghost use Rattle.levels.specs.Arithmetic.{two};
ghost use Rattle.levels.specs.Lawful.{lawful_two};

use crate::arithmetic::{Levels, within};

#[derive(Clone, Copy)]
pub struct TwoLevels;

impl Levels for TwoLevels {
    ghost model = { two };

    ghost LEVELS = { 2 };

    const LEVELS: u8 = 2;

    ghost BITS = { 1 };

    const BITS: u8 = 1;

    ghost LIMIT = { 16 };

    const LIMIT: usize = 16;

    // the model obeys the laws
    ghost lawful = { lawful_two };

    ghost levels = { refl };

    ghost bits = { refl };

    ghost limit = { refl };

    fn legal(n: u8, word: u64) -> bool {
        within(Self::BITS, n, word)
    }

    fn add(a: u64, b: u64) -> u64 {
        a ^ b
    }

    fn product(n: u8, level: u8, word: u64) -> u64 {
        if level == 1 && Self::legal(n, word) {
            word
        } else {
            0
        }
    }

    fn length(word: u64) -> u8 {
        word.count_ones() as u8
    }
}
