// The walk through all words that a search asks of.
ghost use Rattle.std.specs.Prelude.{◌≡◌, ◌++◌, []};
ghost use Rattle.std.specs.Bool.{OnTrue};
ghost use Rattle.preferences.specs.Relation.{EqualAliases};
ghost use Rattle.choice.specs.Chosen.{chosen_words};
ghost use Rattle.levels.specs.Leaves.{leaf_words};
ghost use Rattle.choice.specs.Search.{Coset, Led, Offered, OneOf, Spread};

use crate::chosen::Chosen;
use crate::judge::Judge;
use crate::progress::{Progress, SMALL, sum_at};
use bounded::Bounded;
use levels::Levels;
use levels::opposites::Leaves;
use levels::span::list_sums;
use preferences::{Candidate, Preference};

impl<'a, L: Levels, P: Preference<L>> Judge<'a, L, P> {
    ghost use Rattle.choice.specs.Judged.{AllGenerated, AllLeast, AreLeaves, Beside, FoundBy, IsLeast, KeptBy, OfferedTo, shared_rows, words_of};

    // The best words of all.
    pub(crate) fn best(&self) -> Chosen
        requires { OnTrue self.now.alike (EqualAliases L.model (P.good self.now.preference.now)) }
        ensures { FoundBy L.model P.good self.now (chosen_words result) }
    {
        let mut progress = Progress {
            best: self.nothing(),
            candidates: Bounded::new(Candidate::new(0)),
        };
        self.sample(&mut progress);
        let rows = self.whole.rows();
        let from = self.shared();
        for i in self.known.len()..rows.len() {
            self.offer_led(&mut progress, &rows[from..i], rows[i]);
        }
        progress.best.words
    }

    // At first, some words that lie far apart, so that most words of the walk stand behind them at once: the added rows, and
    // sums of the first of them with all sums of the last ones. Of large alias sets there are few, and of few rows.
    fn sample(&self, progress: &mut Progress)
        requires law { OnTrue self.now.alike (EqualAliases L.model (P.good self.now.preference.now)) }
        requires none { words_of progress.old ≡ [] }
        requires beside { Beside L.model self.now progress.old }
        ensures kept { KeptBy L.model P.good self.now progress.new }
        ensures generated { AllGenerated L.model self.now (words_of progress.new) }
    {
        let from = self.shared();
        let rows = &self.whole.rows()[self.known.len()..];
        self.offer_all(progress, rows);
        let walked = &self.whole.rows()[from..];
        if self.room > 0 && from <= SMALL && walked.len() > SMALL {
            let (before, sums) = list_sums::<L>(self.factors, walked);
            let leaves = Leaves::new::<L>(self.factors, sums);
            let mut start = 0;
            for row in before {
                start = L::add(start, *row);
                self.offer_leaves(progress, &leaves, start);
            }
        }
    }

    // Each word of a list is offered.
    fn offer_all(&self, progress: &mut Progress, words: &[u64])
        requires words { AllLeast L.model self.now words.now }
        requires kept { KeptBy L.model P.good self.now progress.old }
        ensures { let listed = OneOf L.model self.now.factors (shared_rows self.now) words.now in
            OfferedTo L.model P.good self.now listed (words_of progress.old) progress.new }
    {
        for word in words {
            self.offer(progress, *word);
        }
    }

    // Each sum of a start and a leaf is offered.
    fn offer_leaves(&self, progress: &mut Progress, leaves: &Leaves, start: u64)
        requires start { IsLeast L.model self.now start }
        requires leaves { AreLeaves L.model self.now leaves.now }
        requires kept { KeptBy L.model P.good self.now progress.old }
        ensures { let sums = Spread L.model self.now.factors (shared_rows self.now) [] (leaf_words leaves.now) start in
            OfferedTo L.model P.good self.now sums (words_of progress.old) progress.new }
    {
        let mut next = 0;
        while next < leaves.words().len() {
            match self.next_ahead(progress, leaves, next, start) {
                Some(place) => {
                    self.offer(progress, sum_at(leaves, start, place).word::<L>());
                    next = place + 1;
                }
                None => next = leaves.words().len(),
            }
        }
    }

    // Each sum of a start, multiples of the words, and a leaf is offered.
    fn offer_over_leaves(&self, progress: &mut Progress, words: &[u64], leaves: &Leaves, start: u64)
        requires start { IsLeast L.model self.now start }
        requires words { AllLeast L.model self.now words.now }
        requires leaves { AreLeaves L.model self.now leaves.now }
        requires kept { KeptBy L.model P.good self.now progress.old }
        ensures { let shared = shared_rows self.now in
            let sums = Spread L.model self.now.factors shared words.now (leaf_words leaves.now) start in
            OfferedTo L.model P.good self.now sums (words_of progress.old) progress.new }
    {
        match words {
            [] => self.offer_leaves(progress, leaves, start),
            [word, rest @ ..] => {
                for level in 0..L::LEVELS {
                    let next = L::add(start, L::product(self.factors, level, *word));
                    self.offer_over_leaves(progress, rest, leaves, next);
                }
            }
        }
    }

    // Each sum of a start and what the rows generate is offered.
    fn offer_coset(&self, progress: &mut Progress, rows: &[u64], start: u64)
        requires start { IsLeast L.model self.now start }
        requires rows { AllLeast L.model self.now rows.now }
        requires kept { KeptBy L.model P.good self.now progress.old }
        ensures { let sums = Coset L.model self.now.factors (rows.now ++ shared_rows self.now) start in
            OfferedTo L.model P.good self.now sums (words_of progress.old) progress.new }
    {
        let (before, sums) = list_sums::<L>(self.factors, rows);
        let leaves = Leaves::new::<L>(self.factors, sums);
        self.offer_over_leaves(progress, before, &leaves, start);
    }

    // Each word that is led by a word is offered: a multiple of it, other than by 0, plus what the rows generate.
    fn offer_led(&self, progress: &mut Progress, rows: &[u64], lead: u64)
        requires lead { IsLeast L.model self.now lead }
        requires rows { AllLeast L.model self.now rows.now }
        requires kept { KeptBy L.model P.good self.now progress.old }
        ensures { let led = Led L.model self.now.factors (rows.now ++ shared_rows self.now) lead in
            OfferedTo L.model P.good self.now led (words_of progress.old) progress.new }
    {
        for level in 1..L::LEVELS {
            self.offer_coset(progress, rows, L::product(self.factors, level, lead));
        }
    }
}
