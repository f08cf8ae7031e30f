// A plan while words are admitted to it, one after the other.
ghost use Rattle.std.specs.Prelude.{◌≡◌};
ghost use Rattle.contents.specs.Content.{Acts, admitted, started};
ghost use Rattle.contents.specs.Held.{content_of};

use crate::content::PlanContent;
use crate::refusal::Refusal;
use crate::side::Side;
use levels::{Basis, Levels};
use std::marker::{Model, PhantomData};

/// What a plan holds, with a basis of its words, by which it is known in a handful of sums whether they generate a word.
#[derive(Drop)]
pub struct Draft<L: Levels> {
    held: PlanContent,
    basis: Basis,
    levels: PhantomData<L>,
}

// A clause sees what the plan holds so far.
impl<L: Levels> Model for Draft<L> {
    ghost use Rattle.levels.specs.Rows.{basis_rows};
    ghost use Rattle.contents.specs.Content.{Content};
    ghost use Rattle.contents.specs.Drafts.{BasisOf};
    ghost use Rattle.contents.specs.Held.{content_of};

    ghost Value = { Content };

    ghost view = { λ d. content_of d.held };

    ghost invariant = { λ d. BasisOf L.Levels.model (content_of d.held) (basis_rows d.basis) };
}

impl<L: Levels> Draft<L> {
    /// So many factors, and no words.
    pub fn started(n: u8) -> Result<Draft<L>, Refusal>
        ensures { result ≡ started n }
    {
        Ok(Draft {
            held: PlanContent::started(n)?,
            basis: Basis::new(),
            levels: PhantomData,
        })
    }

    /// A word is admitted at the end of one list.
    pub fn admit(&mut self, side: Side, word: u64) -> Result<(), Refusal>
        ensures { Acts (admitted L.Levels.model side word self.old) self.old self.new result }
    {
        let n = self.held.factors;
        let known = self.basis.reduce::<L>(n, word) == 0;
        self.held.admissible::<L>(word, known)?;
        self.basis.admit::<L>(n, word);
        self.held.push(side, word);
        Ok(())
    }

    /// What the plan holds now.
    pub fn finish(self) -> PlanContent
        ensures { content_of result ≡ self }
    {
        self.held
    }
}
