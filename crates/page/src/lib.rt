// The trial page of a settled plan.
#![tactic(auto)]

ghost use Rattle.std.specs.Prelude.{◌≡◌, ◌≤◌, length};
ghost use Rattle.contents.specs.Memory.{holding, wrote};
ghost use Rattle.page.specs.Page.{page as page_of};

use contents::{Refusal, store};
pub use letters::factor_of;
use levels::Levels;
use plan::SettledPlan;
use printing::printed;
pub use sheet::LONGEST;

mod letters;
mod printing;
mod sheet;

/// The trial page is written at the start of the memory that is lent, and its length is answered. It has at most 1,024
/// bytes.
pub fn page<L: Levels>(plan: &SettledPlan<L>, memory: &mut [u8]) -> Result<usize, Refusal>
    ensures stored { memory.new ≡ holding (page_of L.Levels.model plan.now) memory.old }
    ensures count { result ≡ wrote (page_of L.Levels.model plan.now) memory.old }
    ensures short { length (page_of L.Levels.model plan.now) ≤ 1024 }
{
    store(printed::<L>(plan).as_slice(), memory)
}
