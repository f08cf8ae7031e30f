// Words as a script writes them: a code in base ten, or letters.
ghost use Rattle.std.specs.Prelude.{◌≡◌};

use page::factor_of;

/// How many levels each factor has.
#[derive(Clone, Copy, PartialEq, Eq, Debug)]
pub enum LevelCount {
    Two,
    Three,
}

impl LevelCount {
    /// How many bits of a code a digit takes.
    fn bits(self) -> u8
        ensures two { self ≡ LevelCount.Two → result ≡ 1 }
        ensures three { self ≡ LevelCount.Three → result ≡ 2 }
    {
        match self {
            LevelCount::Two => 1,
            LevelCount::Three => 2,
        }
    }
}

/// The code of a word.
pub fn code_of(levels: LevelCount, text: &str) -> Option<u64> {
    if text.starts_with(|c: char| c.is_ascii_digit()) {
        text.parse().ok()
    } else {
        code_of_letters(levels, text)
    }
}

// The letters of its factors in ascending order, and with three levels a digit 2 behind its letter.
fn code_of_letters(levels: LevelCount, text: &str) -> Option<u64> {
    let mut code = 0u64;
    // Digit 1 of the factor whose digit may still become 2; 0 if there is none.
    let mut last = 0u64;
    for letter in text.bytes() {
        if letter == b'2' && last != 0 {
            code ^= last | last << 1;
            last = 0;
            continue;
        }
        let digit = 1u64 << (levels.bits() * factor_of(letter)?);
        if digit <= code {
            return None;
        }
        code |= digit;
        last = match levels {
            LevelCount::Two => 0,
            LevelCount::Three => digit,
        };
    }
    Some(code)
}

#[cfg(test)]
mod tests {
    use super::*;

    #[test]
    fn codes_of_words(rt: HostRuntime) {
        for (levels, text, code) in [
            (LevelCount::Two, "ABCF", Some(39)),
            (LevelCount::Two, "Zf", Some(1 << 25 | 1 << 31)),
            (LevelCount::Two, "75", Some(75)),
            (LevelCount::Two, "BA", None),
            (LevelCount::Two, "AA", None),
            (LevelCount::Two, "A2", None),
            (LevelCount::Two, "g", None),
            (LevelCount::Two, "7A", None),
            (LevelCount::Three, "AB2D", Some(73)),
            (LevelCount::Three, "f2", Some(1 << 63)),
            (LevelCount::Three, "A22", None),
            (LevelCount::Three, "A2A", None),
        ] {
            assert_eq!(rt; code_of(levels, text), code, "at {text}");
        }
    }
}
