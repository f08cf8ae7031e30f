// A plan file is read into a new plan.
ghost use Rattle.std.specs.Prelude.{◌≡◌};
ghost use Rattle.planfile.specs.File.{read_file};

use contents::Refusal;
use levels::Levels;
use plan::{OpenPlan, SettledPlan};

// The open plan that a file holds.
pub(crate) fn open<L: Levels>(file: &[u8]) -> Result<OpenPlan<L>, Refusal>
    ensures { result ≡ read_file L.Levels.model file.now }
{
    let mut plan = OpenPlan::<L>::new();
    plan.read(file)?;
    Ok(plan)
}

// The settled plan that a file holds.
pub(crate) fn settle<L: Levels>(file: &[u8]) -> Result<SettledPlan<L>, Refusal>
    ensures { result ≡ read_file L.Levels.model file.now }
{
    let plan = open::<L>(file)?;
    Ok(plan.settle())
}
