// A list of at most 16 words, none of them code 0.
ghost use Rattle.std.specs.Prelude.{◌≡◌, ◌+◌, ◌<◌, ◌≤◌, [], ◌∷◌, ◌++◌, length, take, drop, slice_index, EachIndex};
ghost use Rattle.bounded.specs.Items.{items_of};

use bounded::Bounded;
// How many words a plan holds at most, whatever its levels.
pub use levels::MOST;

#[derive(Clone, Copy)]
pub struct Words {
    words: Bounded<u64, MOST>,
    ghost nonzero: { EachIndex (items_of words) (λ i. 0 < slice_index (items_of words) i) },
}

impl Words {
    ghost use Rattle.contents.specs.List.{listed};

    /// No words.
    pub fn new() -> Words
        ensures { listed result ≡ [] }
    {
        Words {
            words: Bounded::new(0),
        }
    }

    /// The words in their order.
    pub fn as_slice(&self) -> &[u64]
        ensures { result.now ≡ listed self.now }
    {
        self.words.as_slice()
    }

    /// How many words there are.
    pub fn len(&self) -> usize
        ensures value { result ≡ length (listed self.now) }
        ensures bound { result ≤ 16 }
    {
        self.words.len()
    }

    // One word more at the end.
    pub(crate) fn push(&mut self, word: u64)
        requires room { length (listed self.old) < 16 }
        requires nonzero { 0 < word }
        ensures { listed self.new ≡ listed self.old ++ word ∷ [] }
    {
        self.words.push(word);
    }

    // The list without the word at a place, from 0; later words move up.
    pub(crate) fn remove(&mut self, place: usize)
        ensures { listed self.new ≡ take place (listed self.old) ++ drop (place + 1) (listed self.old) }
    {
        self.words.remove(place);
    }
}
