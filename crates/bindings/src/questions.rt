// Questions to the plan of a file.
ghost use Rattle.std.specs.Prelude.{◌≡◌};
ghost use Rattle.bindings.specs.Asked.{left, told};
ghost use Rattle.bindings.specs.Numbers.{at_levels};
ghost use Rattle.bindings.specs.Outcomes.{outcome_of};
ghost use Rattle.bindings.specs.Questions.{alias_member_in, count_in, factors_in, pattern_in, resolution_count_in, resolution_in, word_in};

use crate::file::settle;
use crate::numbers::{LevelCount, side_by};
use crate::outcome::Outcome;
use crate::refused::Refused;
use levels::Levels;

// The number of factors of a file's plan.
fn factors<L: Levels>(file: &[u8]) -> Result<u64, Refused>
    ensures { result ≡ factors_in L.model file.now }
{
    Ok(u64::from(settle::<L>(file)?.factors()))
}

// How many words a list of a file's plan has.
fn count<L: Levels>(file: &[u8], side: u8) -> Result<usize, Refused>
    ensures { result ≡ count_in L.model file.now side }
{
    let side = side_by(side)?;
    Ok(settle::<L>(file)?.list(side).len())
}

// A word of a list of a file's plan, by its place.
fn word<L: Levels>(file: &[u8], side: u8, place: usize) -> Result<u64, Refused>
    ensures { result ≡ word_in L.model file.now side place }
{
    let side = side_by(side)?;
    Ok(settle::<L>(file)?.word(side, place)?)
}

// The wordlength pattern of a file's plan.
fn pattern<L: Levels>(file: &[u8], memory: &mut [u32]) -> Result<usize, Refused>
    ensures count { result ≡ told (pattern_in L.model file.now) memory.old }
    ensures stored { memory.new ≡ left (pattern_in L.model file.now) memory.old }
{
    Ok(settle::<L>(file)?.pattern(memory)?)
}

// The length of the resolution, or 0.
fn resolution<L: Levels>(file: &[u8]) -> Result<u64, Refused>
    ensures { result ≡ resolution_in L.model file.now }
{
    let resolution = settle::<L>(file)?.resolution();
    Ok(resolution.map_or(0, |(length, _)| u64::from(length)))
}

// The count of the resolution, or 0.
fn shortest_words<L: Levels>(file: &[u8]) -> Result<u64, Refused>
    ensures { result ≡ resolution_count_in L.model file.now }
{
    let resolution = settle::<L>(file)?.resolution();
    Ok(resolution.map_or(0, |(_, count)| u64::from(count)))
}

// Alias member m of a word over the defining words of a file's plan.
fn alias_member<L: Levels>(file: &[u8], word: u64, m: u64) -> Result<u64, Refused>
    ensures { result ≡ alias_member_in L.model file.now word m }
{
    Ok(settle::<L>(file)?.alias_member(word, m)?)
}

/// The number of factors.
#[unsafe(no_mangle)]
pub extern "C" fn zorilla_factors(levels: u8, file: &[u8]) -> Outcome
    ensures { result ≡ outcome_of (at_levels levels (λ A. factors_in A file.now)) }
{
    by_levels!(levels, factors(file)).into()
}

/// How many words the list of a side has.
#[unsafe(no_mangle)]
pub extern "C" fn zorilla_count(levels: u8, file: &[u8], side: u8) -> Outcome
    ensures { result ≡ outcome_of (at_levels levels (λ A. count_in A file.now side)) }
{
    by_levels!(levels, count(file, side)).into()
}

/// The word at a place of a side's list, from 1.
#[unsafe(no_mangle)]
pub extern "C" fn zorilla_word(levels: u8, file: &[u8], side: u8, place: usize) -> Outcome
    ensures { result ≡ outcome_of (at_levels levels (λ A. word_in A file.now side place)) }
{
    by_levels!(levels, word(file, side, place)).into()
}

/// Writes the wordlength pattern into memory; the value is the number of factors.
#[unsafe(no_mangle)]
pub extern "C" fn zorilla_pattern(levels: u8, file: &[u8], memory: &mut [u32]) -> Outcome
    ensures answer { let counts = at_levels levels (λ A. pattern_in A file.now) in
        result ≡ outcome_of (told counts memory.old) }
    ensures stored { let counts = at_levels levels (λ A. pattern_in A file.now) in
        memory.new ≡ left counts memory.old }
{
    by_levels!(levels, pattern(file, memory)).into()
}

/// The resolution; 0 where there is none.
#[unsafe(no_mangle)]
pub extern "C" fn zorilla_resolution(levels: u8, file: &[u8]) -> Outcome
    ensures { result ≡ outcome_of (at_levels levels (λ A. resolution_in A file.now)) }
{
    by_levels!(levels, resolution(file)).into()
}

/// The count of the resolution; 0 where there is none.
#[unsafe(no_mangle)]
pub extern "C" fn zorilla_resolution_count(levels: u8, file: &[u8]) -> Outcome
    ensures { result ≡ outcome_of (at_levels levels (λ A. resolution_count_in A file.now)) }
{
    by_levels!(levels, shortest_words(file)).into()
}

/// Alias member m of a word, from 0, in ascending code.
#[unsafe(no_mangle)]
pub extern "C" fn zorilla_alias_member(levels: u8, file: &[u8], word: u64, m: u64) -> Outcome
    ensures { result ≡ outcome_of (at_levels levels (λ A. alias_member_in A file.now word m)) }
{
    by_levels!(levels, alias_member(file, word, m)).into()
}
