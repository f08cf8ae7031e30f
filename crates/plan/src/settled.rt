// A plan once it is settled: it tells what it holds, and does not change.
ghost use Rattle.std.specs.Prelude.{◌≡◌, ◌+◌, ◌≤◌, ◌==◌, if◌then◌else◌, length, Ok, Some, None};
ghost use Rattle.contents.specs.Content.{Kept, side_of, word_at};
ghost use Rattle.planfile.specs.File.{file_of, read_file};
ghost use Rattle.contents.specs.Memory.{holding, wrote};

use crate::open::OpenPlan;
use contents::{PlanContent, Refusal, Side, store};
use levels::{Levels, TwoLevels};
use std::marker::{Model, PhantomData};

/// A plan that answers, and does not change.
#[derive(Drop)]
pub struct SettledPlan<L: Levels> {
    pub(crate) levels: PhantomData<L>,
    pub(crate) held: PlanContent,
}

// A clause sees what the plan holds: its factors and its two lists of words. Every plan is kept: its words are within the
// limit, legal and independent. A caller sees the value alone, so `list` and `counts` promise it.
impl<L: Levels> Model for SettledPlan<L> {
    ghost use Rattle.contents.specs.Content.{Content, Kept};
    ghost use Rattle.contents.specs.Held.{content_of};

    ghost Value = { Content };

    ghost view = { λ p. content_of p.held };

    ghost invariant = { λ p. Kept L.Levels.model (content_of p.held) };
}

impl<L: Levels> SettledPlan<L> {
    /// The plan is open to changes again.
    pub fn reopen(self) -> OpenPlan<L>
        ensures { result ≡ self }
    {
        OpenPlan {
            levels: PhantomData,
            held: self.held,
        }
    }

    /// The plan as one of two levels; absent with other levels.
    pub fn two_levels(&self) -> Option<SettledPlan<TwoLevels>>
        ensures { result ≡ (if L.model.s == 2 then Some self.now else None) }
    {
        if L::LEVELS != 2 {
            return None;
        }
        let held = self.held;
        Some(SettledPlan {
            levels: PhantomData,
            held,
        })
    }

    /// The number of factors, from 1 to 32.
    pub fn factors(&self) -> u8
        ensures value { result ≡ self.now.factors }
        ensures low { 1 ≤ result }
        ensures high { result ≤ 32 }
    {
        self.held.factors()
    }

    /// The words of one list, at most 16. Those of both lists are legal and independent, and no more than the limit.
    pub fn list(&self, side: Side) -> &[u64]
        ensures words { result.now ≡ side_of side self.now }
        ensures few { length result.now ≤ 16 }
        ensures kept { Kept L.Levels.model self.now }
    {
        self.held.list(side).as_slice()
    }

    /// How many words each list has, the defining one first: at most 16 in all. The plan is kept.
    pub fn counts(&self) -> (usize, usize)
        ensures defining { result.0 ≡ length self.now.defining }
        ensures block { result.1 ≡ length self.now.block }
        ensures few { result.0 + result.1 ≤ 16 }
        ensures kept { Kept L.Levels.model self.now }
    {
        (
            self.held.list(Side::Defining).len(),
            self.held.list(Side::Block).len(),
        )
    }

    /// A word of a list by its place, from 1.
    pub fn word(&self, side: Side, place: usize) -> Result<u64, Refusal>
        ensures { result ≡ word_at side place self.now }
    {
        self.held.word(side, place)
    }

    /// The file of the plan is written at the start of the memory that is lent, and its length is answered. The plan is
    /// read back from its file.
    pub fn write(&self, memory: &mut [u8]) -> Result<usize, Refusal>
        ensures stored { memory.new ≡ holding (file_of L.Levels.model self.now) memory.old }
        ensures count { result ≡ wrote (file_of L.Levels.model self.now) memory.old }
        ensures again { read_file L.Levels.model (file_of L.Levels.model self.now) ≡ Ok self.now }
    {
        store(planfile::file::<L>(&self.held).as_slice(), memory)
    }
}
