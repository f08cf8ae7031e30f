// Questions to the plan of a file with two levels.
ghost use Rattle.std.specs.Prelude.{◌≡◌};
ghost use Rattle.bindings.specs.Asked.{left};
ghost use Rattle.bindings.specs.Outcomes.{outcome_of};
ghost use Rattle.bindings.specs.Questions.{block_number_in, clear_count_in, clear_in, run_in};

use crate::file::settle;
use crate::outcome::Outcome;
use crate::refused::Refused;
use levels::TwoLevels;

// The clear pairs of a file's plan.
fn clear(file: &[u8], memory: &mut [u8]) -> Result<usize, Refused>
    ensures count { result ≡ clear_count_in file.now memory.old }
    ensures stored { memory.new ≡ left (clear_in file.now) memory.old }
{
    Ok(settle::<TwoLevels>(file)?.clear(memory)?)
}

// Run m of a file's plan.
fn run(file: &[u8], m: u64) -> Result<u64, Refused>
    ensures { result ≡ run_in file.now m }
{
    Ok(settle::<TwoLevels>(file)?.run(m)?)
}

// The block number of a run.
fn block_number(file: &[u8], run: u64, words: &[u64]) -> Result<u64, Refused>
    ensures { result ≡ block_number_in file.now run words.now }
{
    let number = settle::<TwoLevels>(file)?.block_number(run, words)?;
    Ok(u64::from(number))
}

/// Writes a byte for every pair of factors into memory; the value is how many pairs are clear.
#[unsafe(no_mangle)]
pub extern "C" fn zorilla_clear(file: &[u8], memory: &mut [u8]) -> Outcome
    ensures answer { result ≡ outcome_of (clear_count_in file.now memory.old) }
    ensures stored { memory.new ≡ left (clear_in file.now) memory.old }
{
    clear(file, memory).into()
}

/// Run m, from 0, in ascending code.
#[unsafe(no_mangle)]
pub extern "C" fn zorilla_run(file: &[u8], m: u64) -> Outcome
    ensures { result ≡ outcome_of (run_in file.now m) }
{
    run(file, m).into()
}

/// The block number of a run under a list of words.
#[unsafe(no_mangle)]
pub extern "C" fn zorilla_block_number(file: &[u8], run: u64, words: &[u64]) -> Outcome
    ensures { result ≡ outcome_of (block_number_in file.now run words.now) }
{
    block_number(file, run, words).into()
}
