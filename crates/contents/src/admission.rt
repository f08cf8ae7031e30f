// Words are admitted to a plan and struck from it.
ghost use Rattle.std.specs.Prelude.{◌≡◌};
ghost use Rattle.levels.specs.Space.{Word};
ghost use Rattle.levels.specs.Generated.{generated, holds};
ghost use Rattle.contents.specs.Content.{Acts, admissible, admitted, both, struck, word_at};
ghost use Rattle.contents.specs.Held.{content_of};

use crate::content::PlanContent;
use crate::refusal::Refusal;
use crate::side::Side;
use levels::{Levels, basis};

impl PlanContent {
    // Whether the words of both lists together generate a word.
    fn generates<L: Levels>(&self, word: u64) -> bool
        ensures { result ≡ holds (generated L.Levels.model self.now.factors (both (content_of self.now))) word }
    {
        basis::generated::<L>(self.factors, self.together().as_slice(), word)
    }

    // Whether a word may be admitted, of which it is known, if it is legal, whether both lists generate it.
    pub(crate) fn admissible<L: Levels>(&self, word: u64, known: bool) -> Result<(), Refusal>
        requires { Word L.Levels.model self.now.factors word → known ≡ holds (generated L.Levels.model self.now.factors (both (content_of self.now))) word }
        ensures { result ≡ admissible L.Levels.model word (content_of self.now) }
    {
        if !L::legal(self.factors, word) {
            Err(Refusal::Illegal)
        } else if known {
            Err(Refusal::Generated)
        } else if self.defining.len() + self.block.len() < L::LIMIT {
            Ok(())
        } else {
            Err(Refusal::Limit)
        }
    }

    /// A word is admitted at the end of one list.
    pub fn admit<L: Levels>(&mut self, side: Side, word: u64) -> Result<(), Refusal>
        ensures { Acts (admitted L.Levels.model side word (content_of self.old)) (content_of self.old) (content_of self.new) result }
    {
        // Of an illegal code nothing more is asked.
        let known = L::legal(self.factors, word) && self.generates::<L>(word);
        self.admissible::<L>(word, known)?;
        self.push(side, word);
        Ok(())
    }

    /// A word is struck from a list, by its place from 1.
    pub fn strike(&mut self, side: Side, place: usize) -> Result<(), Refusal>
        ensures { Acts (struck side place (content_of self.old)) (content_of self.old) (content_of self.new) result }
    {
        self.word(side, place)?;
        self.remove(side, place - 1);
        Ok(())
    }

    /// A word of a list by its place, from 1.
    pub fn word(&self, side: Side, place: usize) -> Result<u64, Refusal>
        ensures { result ≡ word_at side place (content_of self.now) }
    {
        let before = place.checked_sub(1).ok_or(Refusal::Place)?;
        self.list(side)
            .as_slice()
            .get(before)
            .copied()
            .ok_or(Refusal::Place)
    }
}
