// A plan is changed, and the file of what it holds then is written.
ghost use Rattle.std.specs.Prelude.{◌≡◌};
ghost use Rattle.bindings.specs.Asked.{left, told};
ghost use Rattle.bindings.specs.Numbers.{at_levels};
ghost use Rattle.bindings.specs.Outcomes.{outcome_of};
ghost use Rattle.bindings.specs.Questions.{admitted_file, same_file, started_file, struck_file};

use crate::file::{open, settle};
use crate::numbers::{LevelCount, side_by};
use crate::outcome::Outcome;
use crate::refused::Refused;
use levels::Levels;

// The file of a file's plan with n factors and no words.
fn start<L: Levels>(file: &[u8], n: u8, memory: &mut [u8]) -> Result<usize, Refused>
    ensures count { result ≡ told (started_file L.model file.now n) memory.old }
    ensures stored { memory.new ≡ left (started_file L.model file.now n) memory.old }
{
    let mut plan = open::<L>(file)?;
    plan.start(n)?;
    Ok(plan.settle().write(memory)?)
}

// The file of a file's plan with one word more.
fn admit<L: Levels>(file: &[u8], side: u8, word: u64, memory: &mut [u8]) -> Result<usize, Refused>
    ensures count { result ≡ told (admitted_file L.model file.now side word) memory.old }
    ensures stored { memory.new ≡ left (admitted_file L.model file.now side word) memory.old }
{
    let side = side_by(side)?;
    let mut plan = open::<L>(file)?;
    plan.admit(side, word)?;
    Ok(plan.settle().write(memory)?)
}

// The file of a file's plan without the word at a place.
fn strike<L: Levels>(
    file: &[u8],
    side: u8,
    place: usize,
    memory: &mut [u8],
) -> Result<usize, Refused>
    ensures count { result ≡ told (struck_file L.model file.now side place) memory.old }
    ensures stored { memory.new ≡ left (struck_file L.model file.now side place) memory.old }
{
    let side = side_by(side)?;
    let mut plan = open::<L>(file)?;
    plan.strike(side, place)?;
    Ok(plan.settle().write(memory)?)
}

// The file of a file's plan as it was read.
fn write<L: Levels>(file: &[u8], memory: &mut [u8]) -> Result<usize, Refused>
    ensures count { result ≡ told (same_file L.model file.now) memory.old }
    ensures stored { memory.new ≡ left (same_file L.model file.now) memory.old }
{
    Ok(settle::<L>(file)?.write(memory)?)
}

/// Reads a file, starts the plan anew with n factors, and writes its file into memory; the value is its length.
#[unsafe(no_mangle)]
pub extern "C" fn zorilla_start(levels: u8, file: &[u8], n: u8, memory: &mut [u8]) -> Outcome
    ensures answer { let made = at_levels levels (λ A. started_file A file.now n) in
        result ≡ outcome_of (told made memory.old) }
    ensures stored { let made = at_levels levels (λ A. started_file A file.now n) in
        memory.new ≡ left made memory.old }
{
    by_levels!(levels, start(file, n, memory)).into()
}

/// Reads a file, admits a word, and writes the plan's file into memory; the value is its length.
#[unsafe(no_mangle)]
pub extern "C" fn zorilla_admit(
    levels: u8,
    file: &[u8],
    side: u8,
    word: u64,
    memory: &mut [u8],
) -> Outcome
    ensures answer { let made = at_levels levels (λ A. admitted_file A file.now side word) in
        result ≡ outcome_of (told made memory.old) }
    ensures stored { let made = at_levels levels (λ A. admitted_file A file.now side word) in
        memory.new ≡ left made memory.old }
{
    by_levels!(levels, admit(file, side, word, memory)).into()
}

/// Reads a file, strikes the word at a place, and writes the plan's file into memory; the value is its length.
#[unsafe(no_mangle)]
pub extern "C" fn zorilla_strike(
    levels: u8,
    file: &[u8],
    side: u8,
    place: usize,
    memory: &mut [u8],
) -> Outcome
    ensures answer { let made = at_levels levels (λ A. struck_file A file.now side place) in
        result ≡ outcome_of (told made memory.old) }
    ensures stored { let made = at_levels levels (λ A. struck_file A file.now side place) in
        memory.new ≡ left made memory.old }
{
    by_levels!(levels, strike(file, side, place, memory)).into()
}

/// Reads a file, and writes the plan's file into memory; the value is its length.
#[unsafe(no_mangle)]
pub extern "C" fn zorilla_write(levels: u8, file: &[u8], memory: &mut [u8]) -> Outcome
    ensures answer { let same = at_levels levels (λ A. same_file A file.now) in
        result ≡ outcome_of (told same memory.old) }
    ensures stored { let same = at_levels levels (λ A. same_file A file.now) in
        memory.new ≡ left same memory.old }
{
    by_levels!(levels, write(file, memory)).into()
}
