// The trial page of a plan file.
ghost use Rattle.std.specs.Prelude.{◌≡◌};
ghost use Rattle.bindings.specs.Asked.{left, told};
ghost use Rattle.bindings.specs.Outcomes.{outcome_of};
ghost use Rattle.bindings.specs.Questions.{page_in};

use crate::outcome::Outcome;
use crate::refused::Refused;
use history::trial_page;

/// Writes the page into memory; the value is its length. Byte 5 of the file says whether it has three levels.
#[unsafe(no_mangle)]
#[tactic(auto, using(crate::proofs::Paged::paged_answer, crate::proofs::Paged::paged_left))]
pub extern "C" fn zorilla_page(file: &[u8], memory: &mut [u8]) -> Outcome
    ensures answer { result ≡ outcome_of (told (page_in file.now) memory.old) }
    ensures stored { memory.new ≡ left (page_in file.now) memory.old }
{
    trial_page(file, memory).map_err(Refused::Plan).into()
}
