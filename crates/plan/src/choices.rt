// The generators that a settled plan is asked for.
ghost use Rattle.std.specs.Prelude.{◌≡◌, ◌≤◌, ◌++◌, map, length, if◌then◌else◌, Ok, Err};
ghost use Rattle.bounded.specs.Items.{items_of};
ghost use Rattle.levels.specs.Generated.{Independent};
ghost use Rattle.choice.specs.Choice.{BestGenerators};
ghost use Rattle.choice.specs.Chosen.{chosen_words};
ghost use Rattle.contents.specs.declared.refusal.Refusal.TheVariants.{Memory};
ghost use Rattle.contents.specs.Content.{side_of};
ghost use Rattle.plan.specs.Answers.{base_of, chosen, chosen_scores};
ghost use Rattle.contents.specs.Memory.{both_fit, holding, holding_if, wrote};

use crate::settled::SettledPlan;
use bounded::Bounded;
use choice::{Chosen, MOST};
use contents::{Refusal, Side, store};
use levels::Levels;
use preferences::{Preference, Scored};

impl<L: Levels> SettledPlan<L> {
    /// Writes the best generators of a side into memory, and tells how many there are: as many as the side has words, at
    /// most 16. With the base list they are independent.
    pub fn choose<P: Preference<L>>(
        &self,
        side: Side,
        preference: &P,
        memory: &mut [u64],
    ) -> Result<usize, Refusal>
        ensures stored { memory.new ≡ holding (chosen L.Levels.model (P.Preference.good preference.now) side self.now) memory.old }
        ensures count { result ≡ wrote (chosen L.Levels.model (P.Preference.good preference.now) side self.now) memory.old }
        ensures few { length (chosen L.Levels.model (P.Preference.good preference.now) side self.now) ≤ 16 }
        ensures independent { Independent L.Levels.model self.now.factors (base_of side self.now ++ chosen L.Levels.model (P.Preference.good preference.now) side self.now) }
        ensures as_many { length (chosen L.Levels.model (P.Preference.good preference.now) side self.now) ≡ length (side_of side self.now) }
        ensures no_rival_is_better { BestGenerators L.Levels.model (P.Preference.good preference.now) self.now.factors (base_of side self.now) (side_of side self.now) (chosen L.Levels.model (P.Preference.good preference.now) side self.now) }
    {
        store(self.generators(side, preference).words(), memory)
    }

    // The best generators of a side.
    fn generators<P: Preference<L>>(&self, side: Side, preference: &P) -> Chosen
        ensures words { chosen_words result ≡ chosen L.Levels.model (P.Preference.good preference.now) side self.now }
        ensures few { length (chosen L.Levels.model (P.Preference.good preference.now) side self.now) ≤ 16 }
        ensures independent { Independent L.Levels.model self.now.factors (base_of side self.now ++ chosen L.Levels.model (P.Preference.good preference.now) side self.now) }
        ensures as_many { length (chosen L.Levels.model (P.Preference.good preference.now) side self.now) ≡ length (side_of side self.now) }
    {
        // The defining side has no base list.
        let base = match side {
            Side::Defining => &[],
            Side::Block => self.list(Side::Defining),
        };
        choice::choose::<L, P>(preference, self.factors(), base, self.list(side))
    }

    /// Writes the best generators of a side, and their scores, and tells how many there are. Nothing is written if
    /// either memory is too short.
    pub fn choose_scored<P: Scored<L>>(
        &self,
        side: Side,
        preference: &P,
        words: &mut [u64],
        scores: &mut [u32],
    ) -> Result<usize, Refusal>
        ensures words { words.new ≡ holding_if (both_fit (length (chosen L.Levels.model (P.Preference.good preference.now) side self.now)) words.old scores.old) (chosen L.Levels.model (P.Preference.good preference.now) side self.now) words.old }
        ensures scores { scores.new ≡ holding_if (both_fit (length (chosen L.Levels.model (P.Preference.good preference.now) side self.now)) words.old scores.old) (chosen_scores L.Levels.model (P.Preference.good preference.now) (P.Scored.points preference.now) side self.now) scores.old }
        ensures count { result ≡ (if both_fit (length (chosen L.Levels.model (P.Preference.good preference.now) side self.now)) words.old scores.old then Ok (length (chosen L.Levels.model (P.Preference.good preference.now) side self.now)) else Err Memory) }
    {
        let chosen = self.generators(side, preference);
        let answer = chosen.words();
        let len = answer.len();
        if words.len() < len || scores.len() < len {
            return Err(Refusal::Memory);
        }
        let all = scores_of::<L, P>(preference, self.factors(), answer);
        words[..len].copy_from_slice(answer);
        scores[..len].copy_from_slice(all.as_slice());
        Ok(len)
    }
}

// The scores of at most 16 words.
fn scores_of<L: Levels, P: Scored<L>>(preference: &P, n: u8, words: &[u64]) -> Bounded<u32, MOST>
    requires { length words.now ≤ 16 }
    ensures { items_of result ≡ map (P.Scored.points preference.now n) words.now }
{
    let mut scores = Bounded::new(0);
    for word in words {
        scores.push(preference.score(n, *word));
    }
    scores
}
