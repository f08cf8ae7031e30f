// Words of two levels in letters: one space stands between words in print, and one before each word that is made here.
use levels::{Levels, TwoLevels};
use page::factor_of;
use std::alloc::{AllocError, Global};

// The codes of words.
pub(crate) fn codes(alloc: Global, text: &str) -> Result<Vec<u64>, AllocError> {
    text.split(' ').map(code).collect(alloc)
}

// The code of a word.
fn code(word: &str) -> u64 {
    let mut code = 0;
    for letter in word.bytes() {
        code |= digit(letter);
    }
    code
}

// Digit 1 of the factor of a letter.
fn digit(letter: u8) -> u64 {
    match factor_of(letter) {
        Some(factor) => 1 << factor,
        None => 0,
    }
}

// The letters of words.
pub(crate) fn letters(alloc: Global, words: &[u64]) -> Result<String, AllocError> {
    let mut text = String::new(alloc);
    for word in words {
        text.push(' ')?;
        for letter in b'A'..=b'Z' {
            if word & digit(letter) != 0 {
                text.push(char::from(letter))?;
            }
        }
    }
    Ok(text)
}

// The lengths of words.
pub(crate) fn lengths(alloc: Global, words: &[u64]) -> Result<String, AllocError> {
    let mut text = String::new(alloc);
    for word in words {
        let length = TwoLevels::length(*word);
        write!(text, " {length}")?;
    }
    Ok(text)
}
