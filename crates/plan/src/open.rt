// A plan while it is open to changes, and the calls that change it.
ghost use Rattle.std.specs.Prelude.{◌≡◌, Ok};
ghost use Rattle.contents.specs.Content.{Acts, Kept, admitted, blank, started, struck};
ghost use Rattle.planfile.specs.File.{file_of, read_file};

use crate::settled::SettledPlan;
use contents::{PlanContent, Refusal, Side};
use levels::Levels;
use std::marker::{Model, PhantomData};

/// A plan that changes, and is not asked.
#[derive(Drop)]
pub struct OpenPlan<L: Levels> {
    pub(crate) levels: PhantomData<L>,
    pub(crate) held: PlanContent,
}

// A clause sees what the plan holds: its factors and its two lists of words. Every plan is kept: its words are within the
// limit, legal and independent.
impl<L: Levels> Model for OpenPlan<L> {
    ghost use Rattle.contents.specs.Content.{Content, Kept};
    ghost use Rattle.contents.specs.Held.{content_of};

    ghost Value = { Content };

    ghost view = { λ p. content_of p.held };

    ghost invariant = { λ p. Kept L.Levels.model (content_of p.held) };
}

impl<L: Levels> OpenPlan<L> {
    /// One factor and no words.
    pub fn new() -> OpenPlan<L>
        ensures { result ≡ blank 1 }
    {
        OpenPlan {
            levels: PhantomData,
            held: PlanContent::new(),
        }
    }

    /// So many factors, and no words.
    pub fn start(&mut self, n: u8) -> Result<(), Refusal>
        ensures { Acts (started n) self.old self.new result }
    {
        self.held = PlanContent::started(n)?;
        Ok(())
    }

    /// One word more at the end of one list.
    pub fn admit(&mut self, side: Side, word: u64) -> Result<(), Refusal>
        ensures { Acts (admitted L.Levels.model side word self.old) self.old self.new result }
    {
        self.held.admit::<L>(side, word)
    }

    /// A word is removed from a list, by its place from 1.
    pub fn strike(&mut self, side: Side, place: usize) -> Result<(), Refusal>
        ensures { Acts (struck side place self.old) self.old self.new result }
    {
        self.held.strike(side, place)
    }

    /// The plan that a file holds. The file of what was read is that file; one that is refused leaves the plan as it was.
    pub fn read(&mut self, file: &[u8]) -> Result<(), Refusal>
        ensures acts { Acts (read_file L.Levels.model file.now) self.old self.new result }
        ensures again { result ≡ Ok tt → file_of L.Levels.model self.new ≡ file.now }
    {
        self.held = planfile::read::<L>(file)?;
        Ok(())
    }

    /// The plan changes no more. Its words are legal and independent, and no more than the limit.
    pub fn settle(self) -> SettledPlan<L>
        ensures same { result ≡ self }
        ensures kept { Kept L.Levels.model result }
    {
        SettledPlan {
            levels: PhantomData,
            held: self.held,
        }
    }
}
