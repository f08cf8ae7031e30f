// The trial page of a plan file.
ghost use Rattle.std.specs.Prelude.{◌≡◌, ℕ, List, take, IfOk, IfSome, OnErr};
ghost use Rattle.std.specs.Io.KnownBytes.{Consumes};
ghost use Rattle.history.specs.Files.{IsPageOfFile, levels_of};

use contents::Refusal;
use levels::{Levels, ThreeLevels, TwoLevels};
use page::page;
use plan::OpenPlan;
use planfile::{ENOUGH, deciding_bytes};
use std::io;
use std::io::Read;

/// Reads a file into a new plan, settles it, and asks for its page.
pub fn page_of_file<L: Levels>(file: &[u8], memory: &mut [u8]) -> Result<usize, Refusal>
    ensures { IsPageOfFile L.model file.now memory.old memory.new result }
{
    let mut plan = OpenPlan::<L>::new();
    plan.read(file)?;
    page(&plan.settle(), memory)
}

/// Writes the trial page of a plan file into memory, and tells how many bytes it has. A file whose byte 5, from 0, is 3
/// has three levels, any other two.
pub fn trial_page(file: &[u8], memory: &mut [u8]) -> Result<usize, Refusal>
    ensures { IsPageOfFile (levels_of file.now) file.now memory.old memory.new result }
{
    match file.get(5) {
        Some(3) => page_of_file::<ThreeLevels>(file, memory),
        _ => page_of_file::<TwoLevels>(file, memory),
    }
}

/// Reads a plan file from an input, and writes its trial page into memory as `trial_page` does. The outer error is that of
/// the reader.
///
/// Of a long input no more is read than decides its refusal.
pub fn page_of_input<R: Read>(
    reader: &mut R,
    memory: &mut [u8],
) -> io::Result<Result<usize, Refusal>>
    // Where the bytes of the input are known, the page is that of all of them; of any other, it is that of some file.
    ensures page { IfOk result (λ answer. IfSome (R.remaining reader.old) (λ input.
        IsPageOfFile (levels_of input) input memory.old memory.new answer)) }
    ensures some_page { IfOk result (λ answer. (file : List ℕ)
        × IsPageOfFile (levels_of file) file memory.old memory.new answer) }
    ensures no_more { IfOk result (λ _. IfSome (R.remaining reader.old) (λ input.
        Consumes (R.remaining reader.old) (R.remaining reader.new) (take ENOUGH input))) }
    ensures failed { OnErr result (memory.new ≡ memory.old) }
{
    let file = deciding_bytes(reader)?;
    Ok(trial_page(file.as_slice(), memory))
}
