// The words of a choice.
ghost use Rattle.std.specs.Prelude.{◌≡◌, [], ◌∷◌, ◌++◌, take};
ghost use Rattle.choice.specs.Chosen.{chosen_words};

use bounded::Bounded;
// A plan holds at most 16 words, so no more than 16 are chosen.
pub use levels::MOST;

/// Words in the order in which they were chosen.
#[derive(Clone, Copy)]
pub struct Chosen(Bounded<u64, MOST>);

impl Chosen {
    // No words.
    pub(crate) fn new() -> Chosen
        ensures { chosen_words result ≡ [] }
    {
        Chosen(Bounded::new(0))
    }

    // One word more, where there is room.
    pub(crate) fn push(&mut self, word: u64)
        ensures { chosen_words self.new ≡ take 16 (chosen_words self.old ++ word ∷ []) }
    {
        self.0.push(word);
    }

    /// The words.
    pub fn words(&self) -> &[u64]
        ensures { result.now ≡ chosen_words self.now }
    {
        self.0.as_slice()
    }
}
