// A word that a search asks many questions of.
ghost use Rattle.std.specs.Prelude.{◌≡◌};
ghost use Rattle.preferences.specs.Candidates.{IsReady};
ghost use Rattle.std.specs.Prelude.{None};

use levels::span::Tally;

/// A word, and its tally over a base list where a preference compares tallies.
#[derive(Clone, Copy)]
pub struct Candidate {
    pub word: u64,
    pub tally: Option<Tally>,
}

impl Candidate {
    /// A word without a tally.
    pub fn new(word: u64) -> Candidate
        ensures word { result.word ≡ word }
        ensures tally { result.tally ≡ None }
    {
        Candidate { word, tally: None }
    }
}
