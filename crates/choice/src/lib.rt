// The choice of generators: the best independent words of what two lists generate.
#![tactic(auto)]

ghost use Rattle.std.specs.Prelude.{◌≡◌, ◌≤◌, length, take};
ghost use Rattle.choice.specs.Choice.{generators, BestGenerators, DependsOnlyOnWords};
ghost use Rattle.choice.specs.Chosen.{chosen_words};

mod best;
pub mod chosen;
mod judge;
mod progress;
mod walk;

pub use chosen::{Chosen, MOST};
use judge::Judge;
use levels::Levels;
use preferences::Preference;

/// The generators of what a base list and further words generate together, beyond the base list: at each step the best
/// word that the base list and the words chosen so far do not generate, the smallest code among equals. At most 16 further words are a
/// premise of the promise: a slice of any length is taken.
pub fn choose<L: Levels, P: Preference<L>>(
    preference: &P,
    n: u8,
    base: &[u64],
    further: &[u64],
) -> Chosen
    ensures exact { let good = P.good preference.now in
        chosen_words result ≡ take 16 (generators L.model good n base.now further.now) }
    ensures promise { let good = P.good preference.now in
        length further.now ≤ 16 →
        BestGenerators L.model good n base.now further.now (chosen_words result) }
    ensures same { DependsOnlyOnWords L.model (P.good preference.now) n base.now further.now }
{
    if further.is_empty() {
        Chosen::new()
    } else {
        chosen_of(preference, n, base, further)
    }
}

// The same of further words, where there are some. A function of its own: its room in memory is cleared where it begins.
#[inline(never)]
fn chosen_of<L: Levels, P: Preference<L>>(
    preference: &P,
    n: u8,
    base: &[u64],
    further: &[u64],
) -> Chosen
    ensures { let good = P.good preference.now in
        chosen_words result ≡ take 16 (generators L.model good n base.now further.now) }
{
    Judge::<L, P>::new(preference, n, base, further).best()
}
