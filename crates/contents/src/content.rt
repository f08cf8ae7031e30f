// What a plan holds: 1 to 32 factors, and two lists of words, together at most 16.
ghost use Rattle.std.specs.Prelude.{◌≡◌, ◌+◌, ◌<◌, ◌≤◌, [], ◌∷◌, ◌++◌, length, take, drop};
ghost use Rattle.bounded.specs.Items.{items_of};
ghost use Rattle.contents.specs.List.{listed};

use crate::refusal::Refusal;
use crate::side::Side;
use crate::words::{MOST, Words};
use bounded::Bounded;

#[derive(Clone, Copy)]
pub struct PlanContent {
    pub(crate) factors: u8,
    pub(crate) defining: Words,
    pub(crate) block: Words,
    ghost range: { (1 ≤ factors) × (factors ≤ 32) },
    ghost few: { length (listed defining) + length (listed block) ≤ 16 },
}

impl PlanContent {
    ghost use Rattle.contents.specs.Content.{blank, both, side_of, started, with_side};
    ghost use Rattle.contents.specs.Held.{content_of, result_of};

    /// One factor, and no words.
    pub fn new() -> PlanContent
        ensures { content_of result ≡ blank 1 }
    {
        PlanContent::blank(1)
    }

    /// So many factors, and no words.
    pub fn started(n: u8) -> Result<PlanContent, Refusal>
        ensures { result_of result ≡ started n }
    {
        if (1..=32).contains(&n) {
            Ok(PlanContent::blank(n))
        } else {
            Err(Refusal::Factors)
        }
    }

    // The same, for a number that is known to be in range.
    fn blank(n: u8) -> PlanContent
        requires low { 1 ≤ n }
        requires high { n ≤ 32 }
        ensures { content_of result ≡ blank n }
    {
        PlanContent {
            factors: n,
            defining: Words::new(),
            block: Words::new(),
        }
    }

    /// The number of factors.
    pub fn factors(&self) -> u8
        ensures value { result ≡ (content_of self.now).factors }
        ensures low { 1 ≤ result }
        ensures high { result ≤ 32 }
    {
        self.factors
    }

    /// The list on one side.
    pub fn list(&self, side: Side) -> &Words
        ensures { listed result.now ≡ side_of side (content_of self.now) }
    {
        match side {
            Side::Defining => &self.defining,
            Side::Block => &self.block,
        }
    }

    // All words, those of the defining list first.
    pub(crate) fn together(&self) -> Bounded<u64, MOST>
        ensures { items_of result ≡ both (content_of self.now) }
    {
        let mut all = Bounded::new(0);
        all.extend(self.defining.as_slice());
        all.extend(self.block.as_slice());
        all
    }

    // One word more at the end of one list.
    pub(crate) fn push(&mut self, side: Side, word: u64)
        requires room { length (both (content_of self.old)) < 16 }
        requires nonzero { 0 < word }
        ensures { content_of self.new ≡ with_side side (side_of side (content_of self.old) ++ word ∷ []) (content_of self.old) }
    {
        match side {
            Side::Defining => self.defining.push(word),
            Side::Block => self.block.push(word),
        }
    }

    // One list without the word at a place, from 0.
    pub(crate) fn remove(&mut self, side: Side, place: usize)
        ensures { content_of self.new ≡ with_side side (take place (side_of side (content_of self.old)) ++ drop (place + 1) (side_of side (content_of self.old))) (content_of self.old) }
    {
        match side {
            Side::Defining => self.defining.remove(place),
            Side::Block => self.block.remove(place),
        }
    }
}
