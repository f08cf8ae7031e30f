// A sheet holds the bytes of a page while it is put together. It is written on line by line, and keeps what it has room
// for.
ghost use Rattle.std.specs.Prelude.{◌≡◌, ◌<◌, [], ◌∷◌, ◌++◌, take, decimal};
ghost use Rattle.page.specs.Page.{fields, letters, line, shown};
ghost use Rattle.page.specs.Written.{written};

use crate::letters::letter;
use bounded::Bounded;
use itoa::Buffer;
use levels::Levels;
use plan::SettledPlan;

/// No page is longer.
pub const LONGEST: usize = 1024;

// The digit for which its letter stands alone.
const PLAIN: u8 = 1;

#[derive(Clone, Copy)]
pub(crate) struct Sheet {
    bytes: Bounded<u8, LONGEST>,
}

impl Sheet {
    // No bytes.
    pub(crate) fn new() -> Sheet
        ensures { written result ≡ [] }
    {
        Sheet {
            bytes: Bounded::new(0),
        }
    }

    // The bytes that were written.
    pub(crate) fn as_slice(&self) -> &[u8]
        ensures { result.now ≡ written self.now }
    {
        self.bytes.as_slice()
    }

    // Bytes at the end.
    pub(crate) fn text(&mut self, bytes: &[u8])
        ensures { written self.new ≡ take 1024 (written self.old ++ bytes.now) }
    {
        self.bytes.extend(bytes);
    }

    // One byte at the end.
    fn byte(&mut self, byte: u8)
        ensures { written self.new ≡ take 1024 (written self.old ++ byte ∷ []) }
    {
        self.bytes.push(byte);
    }

    // A number in base ten.
    fn decimal(&mut self, n: u32)
        ensures { written self.new ≡ take 1024 (written self.old ++ decimal n) }
    {
        let mut digits = Buffer::new();
        self.text(digits.format(n).as_bytes());
    }

    // A line of a label and numbers.
    pub(crate) fn numbers(&mut self, label: &[u8], numbers: &[u32])
        ensures { written self.new ≡ take 1024 (written self.old ++ line label.now (fields decimal numbers.now)) }
    {
        self.text(label);
        for number in numbers {
            self.byte(b' ');
            self.decimal(*number);
        }
        self.byte(b'\n');
    }

    // The digit of a factor, from 0: its letter where the digit is not 0, and the digit behind it where that is above 1.
    fn digit(&mut self, i: u8, digit: u8)
        requires { i < 32 }
        ensures { written self.new ≡ take 1024 (written self.old ++ letters i (digit ∷ [])) }
    {
        if digit != 0 {
            self.byte(letter(i));
            if digit != PLAIN {
                self.decimal(u32::from(digit));
            }
        }
    }

    // A word of a plan, digit by digit from factor 1.
    fn word<L: Levels>(&mut self, plan: &SettledPlan<L>, code: u64)
        ensures { written self.new ≡ take 1024 (written self.old ++ shown L.Levels.model plan.now.factors code) }
    {
        let base = 1u64 << L::BITS;
        let mut rest = code;
        for i in 0..plan.factors() {
            self.digit(i, (rest % base) as u8);
            rest /= base;
        }
    }

    // A line of a label and words of a plan.
    pub(crate) fn words<L: Levels>(&mut self, label: &[u8], plan: &SettledPlan<L>, words: &[u64])
        ensures { written self.new ≡ take 1024 (written self.old ++ line label.now (fields (shown L.Levels.model plan.now.factors) words.now)) }
    {
        self.text(label);
        for word in words {
            self.byte(b' ');
            self.word::<L>(plan, *word);
        }
        self.byte(b'\n');
    }
}
