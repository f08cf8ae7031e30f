// Words in their order, none of which the base list and those before it generate.
ghost use Rattle.std.specs.Prelude.{◌≡◌, ◌≤◌, [], ◌∷◌, ◌++◌, length, take, drop};
ghost use Rattle.std.specs.Bool.{OnTrue};
ghost use Rattle.levels.specs.Space.{AllWords, Word};
ghost use Rattle.levels.specs.Generated.{Generates};
ghost use Rattle.choice.specs.Chosen.{chosen_words};

use crate::chosen::Chosen;
use crate::judge::Judge;
use levels::basis::reduce_by;
use levels::{Basis, Levels};
use preferences::Preference;

// The best words so far, and beside the rows of the base list one for each of them.
#[derive(Drop)]
pub(crate) struct Best {
    pub(crate) words: Chosen,
    pub(crate) rows: Basis,
}

impl<'a, L: Levels, P: Preference<L>> Judge<'a, L, P> {
    ghost use Rattle.choice.specs.Judged.{FitsBy, kept_by, sieved_by};

    // No words.
    pub(crate) fn nothing(&self) -> Best
        ensures words { chosen_words result.words ≡ [] }
        ensures fits { FitsBy L.model self.now result }
    {
        Best {
            words: Chosen::new(),
            rows: self.known,
        }
    }

    // Whether the base list and the first kept words generate a word.
    pub(crate) fn generated(&self, best: &Best, place: usize, word: u64) -> bool
        requires place { place ≤ length (chosen_words best.now.words) }
        requires fits { FitsBy L.model self.now best.now }
        requires word { Word L.model self.now.factors word }
        ensures { let front = self.now.base.words.now ++ take place (chosen_words best.now.words) in
            OnTrue result (Generates L.model self.now.factors front word) }
    {
        reduce_by::<L>(
            self.factors,
            &best.rows.rows()[..self.known.len() + place],
            word,
        ) == 0
    }

    // A word more behind kept words, where there is room and the base list and they do not generate it.
    fn keep(&self, kept: &mut Best, word: u64)
        requires fits { FitsBy L.model self.now kept.old }
        requires word { Word L.model self.now.factors word }
        ensures words { let before = chosen_words kept.old.words in
            chosen_words kept.new.words ≡ kept_by L.model self.now before word }
        ensures fits { FitsBy L.model self.now kept.new }
    {
        if kept.words.words().len() < self.room {
            let rows = kept.rows.len();
            kept.rows.admit::<L>(self.factors, word);
            if rows < kept.rows.len() {
                kept.words.push(word);
            }
        }
    }

    // The same with each word of a list.
    fn keep_all(&self, kept: &mut Best, words: &[u64])
        requires fits { FitsBy L.model self.now kept.old }
        requires words { AllWords L.model self.now.factors words.now }
        ensures words { let before = chosen_words kept.old.words in
            chosen_words kept.new.words ≡ sieved_by L.model self.now before words.now }
        ensures fits { FitsBy L.model self.now kept.new }
    {
        for word in words {
            self.keep(kept, *word);
        }
    }

    // Of kept words with one more put in at a place, those that the base list and the words before them do not generate.
    pub(crate) fn put(&self, best: &mut Best, place: usize, word: u64)
        requires place { place ≤ length (chosen_words best.old.words) }
        requires kept { AllWords L.model self.now.factors (chosen_words best.old.words) }
        requires word { Word L.model self.now.factors word }
        ensures words { let kept = chosen_words best.old.words in
            let longer = take place kept ++ word ∷ drop place kept in
            chosen_words best.new.words ≡ sieved_by L.model self.now [] longer }
        ensures fits { FitsBy L.model self.now best.new }
    {
        let kept = best.words;
        let (front, back) = kept.words().split_at(place);
        *best = self.nothing();
        self.keep_all(best, front);
        self.keep(best, word);
        self.keep_all(best, back);
    }
}
