// Alias sets, and so many runs from a place on.
ghost use Rattle.std.specs.Prelude.{◌≡◌};
ghost use Rattle.bindings.specs.Asked.{left, told};
ghost use Rattle.bindings.specs.Numbers.{at_levels};
ghost use Rattle.bindings.specs.Outcomes.{outcome_of};
ghost use Rattle.bindings.specs.Questions.{alias_set_in, runs_in};

use crate::file::settle;
use crate::numbers::LevelCount;
use crate::outcome::Outcome;
use crate::refused::Refused;
use levels::{Levels, TwoLevels};

// The alias set of a legal word, in ascending code.
fn alias_set<L: Levels>(file: &[u8], word: u64, memory: &mut [u64]) -> Result<usize, Refused>
    ensures count { result ≡ told (alias_set_in L.model file.now word) memory.old }
    ensures stored { memory.new ≡ left (alias_set_in L.model file.now word) memory.old }
{
    Ok(settle::<L>(file)?.alias_set(word, memory)?)
}

// So many runs from a place on, in ascending code.
fn runs(file: &[u8], first: u64, count: usize, memory: &mut [u64]) -> Result<usize, Refused>
    ensures count { result ≡ told (runs_in file.now first count) memory.old }
    ensures stored { memory.new ≡ left (runs_in file.now first count) memory.old }
{
    Ok(settle::<TwoLevels>(file)?.runs(first, count, memory)?)
}

/// Writes the alias set of a word into memory; the value is how many words it has.
#[unsafe(no_mangle)]
pub extern "C" fn zorilla_aliases(levels: u8, file: &[u8], word: u64, memory: &mut [u64]) -> Outcome
    ensures answer { let set = at_levels levels (λ A. alias_set_in A file.now word) in
        result ≡ outcome_of (told set memory.old) }
    ensures stored { let set = at_levels levels (λ A. alias_set_in A file.now word) in
        memory.new ≡ left set memory.old }
{
    by_levels!(levels, alias_set(file, word, memory)).into()
}

/// Writes so many runs from a place on into memory; the value is how many they are.
#[unsafe(no_mangle)]
pub extern "C" fn zorilla_runs(file: &[u8], first: u64, count: usize, memory: &mut [u64]) -> Outcome
    ensures answer { result ≡ outcome_of (told (runs_in file.now first count) memory.old) }
    ensures stored { memory.new ≡ left (runs_in file.now first count) memory.old }
{
    runs(file, first, count, memory).into()
}
