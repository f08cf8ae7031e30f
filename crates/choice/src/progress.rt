// One word after the other is offered to the best so far.
ghost use Rattle.std.specs.Prelude.{◌≡◌, ℕ, ◌<◌, ◌≤◌, [], length, slice_index, IfSome, IfNone};
ghost use Rattle.std.specs.Bool.{OnTrue, OnFalse};
ghost use Rattle.std.specs.List.{All};
ghost use Rattle.bounded.specs.Items.{items_of};
ghost use Rattle.levels.specs.Space.{Word};
ghost use Rattle.levels.specs.Words.{word_sum};
ghost use Rattle.preferences.specs.Candidates.{IsSum};
ghost use Rattle.levels.specs.Leaves.{leaf_words};
ghost use Rattle.choice.specs.Search.{Coset, NoLater};

use crate::best::Best;
use crate::chosen::MOST;
use crate::judge::Judge;
use bounded::Bounded;
use levels::Levels;
use levels::opposites::Leaves;
use preferences::{Candidate, Preference, Sum};

// So few rows make few sums.
pub(crate) const SMALL: usize = 4;

// The best words so far, and the candidates of those that entered last.
#[derive(Drop)]
pub(crate) struct Progress {
    pub(crate) best: Best,
    pub(crate) candidates: Bounded<Candidate, MOST>,
}

impl<'a, L: Levels, P: Preference<L>> Judge<'a, L, P> {
    ghost use Rattle.choice.specs.Judged.{AllBehind, AreLeaves, Beside, FirstAhead, Found, IsFor, IsLeast, KeptBy, KnownAs, NoneAhead, OfferedTo, ReadyFor, order_of, shared_rows, words_of};

    // What was worked out of a word when it entered.
    fn known<'p>(&self, progress: &'p Progress, word: u64) -> Option<&'p Candidate>
        requires { All (ReadyFor L.model self.now) (items_of progress.now.candidates) }
        ensures { IfSome result (λ known. KnownAs L.model self.now word known.now) }
    {
        for candidate in progress.candidates.as_slice() {
            if candidate.word == word {
                return Some(candidate);
            }
        }
        None
    }

    // A candidate that was worked out is kept, and the first of too many goes.
    fn remember(&self, progress: &mut Progress, candidate: &Candidate)
        requires beside { Beside L.model self.now progress.old }
        requires ready { ReadyFor L.model self.now candidate.now }
        ensures words { words_of progress.new ≡ words_of progress.old }
        ensures beside { Beside L.model self.now progress.new }
    {
        if candidate.tally.is_some() {
            if progress.candidates.len() == MOST {
                progress.candidates.remove(0);
            }
            progress.candidates.push(*candidate);
        }
    }

    // Whether a candidate stands before a word, of which nothing is kept.
    #[inline(always)]
    fn precedes_next(&self, candidate: &Candidate, word: u64) -> bool
        requires candidate { IsFor L.model self.now candidate.now }
        requires word { Word L.model self.now.factors word }
        ensures yes { let order = order_of L.model P.good self.now in
            OnTrue result (NoLater order candidate.now.word word) }
        ensures no { let order = order_of L.model P.good self.now in
            OnFalse result (NoLater order word candidate.now.word) }
    {
        if candidate.tally.is_none() {
            self.precedes_word(candidate.word, word)
        } else if self.known.len() > SMALL {
            self.precedes(candidate, &self.preference.ready(&self.base, word))
        } else {
            // of a small alias set the first aliases often decide
            self.precedes(candidate, &Candidate::new(word))
        }
    }

    // Whether a candidate stands before one of the best words so far.
    fn precedes_kept(&self, progress: &Progress, candidate: &Candidate, word: u64) -> bool
        requires candidate { IsFor L.model self.now candidate.now }
        requires word { Word L.model self.now.factors word }
        requires ready { All (ReadyFor L.model self.now) (items_of progress.now.candidates) }
        ensures yes { let order = order_of L.model P.good self.now in
            OnTrue result (NoLater order candidate.now.word word) }
        ensures no { let order = order_of L.model P.good self.now in
            OnFalse result (NoLater order word candidate.now.word) }
    {
        match self.known(progress, word) {
            Some(kept) => self.precedes(candidate, kept),
            None => self.precedes_next(candidate, word),
        }
    }

    // How many of the best words so far stand before a candidate.
    fn place(&self, progress: &Progress, candidate: &Candidate) -> usize
        requires candidate { IsFor L.model self.now candidate.now }
        requires kept { KeptBy L.model P.good self.now progress.now }
        ensures within { result ≤ length (words_of progress.now) }
        ensures before { let words = words_of progress.now in
            let order = order_of L.model P.good self.now in
            (j : ℕ) → j < result → NoLater order (slice_index words j) candidate.now.word }
        ensures behind { let words = words_of progress.now in
            let order = order_of L.model P.good self.now in
            (j : ℕ) → result ≤ j → j < length words →
            NoLater order candidate.now.word (slice_index words j) }
    {
        let mut front = progress.best.words.words();
        while let [before @ .., last] = front {
            if !self.precedes_kept(progress, candidate, *last) {
                break;
            }
            front = before;
        }
        front.len()
    }

    // A word is offered to the best so far, for all that are alike: it is the smallest code of them.
    pub(crate) fn offer(&self, progress: &mut Progress, word: u64)
        requires word { IsLeast L.model self.now word }
        requires kept { KeptBy L.model P.good self.now progress.old }
        ensures { let alike = Coset L.model self.now.factors (shared_rows self.now) word in
            OfferedTo L.model P.good self.now alike (words_of progress.old) progress.new }
    {
        self.enter(progress, &self.preference.ready(&self.base, word));
    }

    // A candidate is put among the best words, unless they are full or generate it.
    pub(crate) fn enter(&self, progress: &mut Progress, candidate: &Candidate)
        requires candidate { IsFor L.model self.now candidate.now }
        requires kept { KeptBy L.model P.good self.now progress.old }
        ensures { let before = words_of progress.old in
            OfferedTo L.model P.good self.now (λ y. y ≡ candidate.now.word) before progress.new }
    {
        let place = self.place(progress, candidate);
        if place < self.room && !self.generated(&progress.best, place, candidate.word) {
            self.put(&mut progress.best, place, candidate.word);
            self.remember(progress, candidate);
        }
    }

    // Whether a candidate stands before a sum.
    #[inline(always)]
    fn precedes_next_sum(&self, candidate: &Candidate, sum: Sum) -> bool
        requires candidate { IsFor L.model self.now candidate.now }
        requires sum { IsSum L.model self.now.factors sum }
        ensures yes { let word = word_sum L.model self.now.factors sum.first sum.second in
            OnTrue result (NoLater (order_of L.model P.good self.now) candidate.now.word word) }
        ensures no { let word = word_sum L.model self.now.factors sum.first sum.second in
            OnFalse result (NoLater (order_of L.model P.good self.now) word candidate.now.word) }
    {
        if candidate.tally.is_none() {
            self.precedes_sum(candidate.word, sum)
        } else {
            self.precedes_next(candidate, sum.word::<L>())
        }
    }

    // The first leaf, from a place on, whose sum with a start does not stand behind a candidate.
    #[inline(always)]
    fn first_ahead(
        &self,
        last: &Candidate,
        leaves: &Leaves,
        first: usize,
        start: u64,
    ) -> Option<usize>
        requires first { first ≤ length (leaf_words leaves.now) }
        requires start { IsLeast L.model self.now start }
        requires leaves { AreLeaves L.model self.now leaves.now }
        requires last { IsFor L.model self.now last.now }
        ensures some { let word = last.now.word in
            let words = leaf_words leaves.now in
            IfSome result (FirstAhead L.model P.good self.now word words start first) }
        ensures none { let words = leaf_words leaves.now in
            let word = last.now.word in
            IfNone result (AllBehind L.model P.good self.now word words start first (length words)) }
    {
        for place in first..leaves.words().len() {
            if !self.precedes_next_sum(last, sum_at(leaves, start, place)) {
                return Some(place);
            }
        }
        None
    }

    // The first leaf, from a place on, whose sum with a start does not stand behind the last of the best words, where these are full.
    #[inline]
    pub(crate) fn next_ahead(
        &self,
        progress: &Progress,
        leaves: &Leaves,
        first: usize,
        start: u64,
    ) -> Option<usize>
        requires first { first < length (leaf_words leaves.now) }
        requires start { IsLeast L.model self.now start }
        requires leaves { AreLeaves L.model self.now leaves.now }
        requires kept { KeptBy L.model P.good self.now progress.now }
        ensures some { let words = leaf_words leaves.now in
            IfSome result (Found L.model P.good self.now progress.now words start first) }
        ensures none { let words = leaf_words leaves.now in
            let best = progress.now in
            IfNone result (NoneAhead L.model P.good self.now best words start first (length words)) }
    {
        let words = progress.best.words.words();
        if words.len() < self.room {
            return Some(first);
        }
        let [.., last] = words else {
            return Some(first);
        };
        match self.known(progress, *last) {
            Some(last) => self.first_ahead(last, leaves, first, start),
            None => {
                let last = self.preference.ready(&self.base, *last);
                self.first_ahead(&last, leaves, first, start)
            }
        }
    }
}

// The sum of a start and the leaf at a place.
#[inline]
pub(crate) fn sum_at(leaves: &Leaves, start: u64, place: usize) -> Sum
    requires place { place < length (leaf_words leaves.now) }
    requires many { length (items_of leaves.now.opposites) ≡ length (leaf_words leaves.now) }
    ensures first { result.first ≡ start }
    ensures second { result.second ≡ slice_index (leaf_words leaves.now) place }
    ensures opposite { result.opposite ≡ slice_index (items_of leaves.now.opposites) place }
{
    Sum {
        first: start,
        second: leaves.words()[place],
        opposite: leaves.opposites()[place],
    }
}
