// The order in which a search takes words.
ghost use Rattle.std.specs.Prelude.{◌≡◌, ◌≤◌, ◌-◌, ◌++◌, length, take, min};
ghost use Rattle.std.specs.Bool.{OnTrue, OnFalse};
ghost use Rattle.levels.specs.Space.{Word};
ghost use Rattle.levels.specs.Words.{word_sum};
ghost use Rattle.preferences.specs.Candidates.{IsSum};
ghost use Rattle.levels.specs.Generated.{generated};
ghost use Rattle.levels.specs.Basis.{Echelon};
ghost use Rattle.levels.specs.Rows.{basis_rows};
ghost use Rattle.preferences.specs.Relation.{fair, EqualAliases};
ghost use Rattle.choice.specs.Search.{NoLater, first_stands};

use crate::chosen::MOST;
use levels::{Basis, Levels, Span};
use preferences::{Candidate, Preference, Sum, Verdict, fair};

// Judges words of so many factors by a preference, over a base list.
#[derive(Drop)]
pub(crate) struct Judge<'a, L: Levels, P> {
    pub(crate) preference: &'a P,
    pub(crate) factors: u8,
    pub(crate) base: Span<'a, L>,
    // Whether preferences judge by the base list; else all words are equal.
    pub(crate) able: bool,
    // Whether words of one alias set over the base list are equal.
    pub(crate) alike: bool,
    // Rows of the base list.
    pub(crate) known: Basis,
    // Rows of the base list and the further words, those of the base list first.
    pub(crate) whole: Basis,
    // How many words are kept at most.
    pub(crate) room: usize,
    ghost same: { base.factors ≡ factors },
    ghost aware: { able ≡ fair L.model factors base.words.now },
    ghost echelon: { Echelon L.model factors (basis_rows known) },
    ghost spans: { generated L.model factors (basis_rows known) ≡ generated L.model factors base.words.now },
    ghost all: { Echelon L.model factors (basis_rows whole) },
    ghost front: { take (length (basis_rows known)) (basis_rows whole) ≡ basis_rows known },
    ghost longer: { length (basis_rows known) ≤ length (basis_rows whole) },
    ghost space: { room ≡ min 16 (length (basis_rows whole) - length (basis_rows known)) },
    ghost few: { room ≤ 16 },
}

impl<'a, L: Levels, P: Preference<L>> Judge<'a, L, P> {
    ghost use Rattle.choice.specs.Judged.{IsFor, order_of, shared_rows};

    // By a preference, for so many factors, a base list and further words.
    pub(crate) fn new(
        preference: &'a P,
        factors: u8,
        base: &'a [u64],
        further: &[u64],
    ) -> Judge<'a, L, P>
        ensures preference { result.preference.now ≡ preference.now }
        ensures factors { result.factors ≡ factors }
        ensures base { result.base.words.now ≡ base.now }
        ensures alike { OnTrue result.alike (EqualAliases L.model (P.good preference.now)) }
        ensures whole { let rows = basis_rows result.whole in
            generated L.model factors rows ≡ generated L.model factors (base.now ++ further.now) }
    {
        let mut known = Basis::new();
        known.admit_all::<L>(factors, base);
        let mut whole = known;
        whole.admit_all::<L>(factors, further);
        let room = (whole.len() - known.len()).min(MOST);
        Judge {
            preference,
            factors,
            base: Span::new(factors, base),
            able: fair::<L>(factors, base),
            alike: preference.equates_aliases(),
            known,
            whole,
            room,
        }
    }

    // Whether a word stands before another: it is better, or the smaller code among equals.
    #[inline]
    pub(crate) fn precedes(&self, a: &Candidate, b: &Candidate) -> bool
        requires first { IsFor L.model self.now a.now }
        requires second { IsFor L.model self.now b.now }
        ensures yes { let order = order_of L.model P.good self.now in
            OnTrue result (NoLater order a.now.word b.now.word) }
        ensures no { let order = order_of L.model P.good self.now in
            OnFalse result (NoLater order b.now.word a.now.word) }
    {
        let verdict = if self.able {
            self.preference.prefer_ready(&self.base, a, b)
        } else {
            Verdict::Equal
        };
        before_second(verdict, a.word, b.word)
    }

    // The same of words alone.
    #[inline]
    pub(crate) fn precedes_word(&self, a: u64, b: u64) -> bool
        requires first { Word L.model self.now.factors a }
        requires second { Word L.model self.now.factors b }
        ensures yes { OnTrue result (NoLater (order_of L.model P.good self.now) a b) }
        ensures no { OnFalse result (NoLater (order_of L.model P.good self.now) b a) }
    {
        let verdict = if self.able {
            self.preference.prefer(&self.base, a, b)
        } else {
            Verdict::Equal
        };
        before_second(verdict, a, b)
    }

    // The same of a word and a sum.
    #[inline]
    pub(crate) fn precedes_sum(&self, a: u64, sum: Sum) -> bool
        requires first { Word L.model self.now.factors a }
        requires second { IsSum L.model self.now.factors sum }
        ensures yes { let b = word_sum L.model self.now.factors sum.first sum.second in
            OnTrue result (NoLater (order_of L.model P.good self.now) a b) }
        ensures no { let b = word_sum L.model self.now.factors sum.first sum.second in
            OnFalse result (NoLater (order_of L.model P.good self.now) b a) }
    {
        let verdict = if self.able {
            self.preference.prefer_to_sum(&self.base, a, sum)
        } else {
            Verdict::Equal
        };
        before_second(verdict, a, sum.word::<L>())
    }

    // How many of all rows make words that are alike.
    pub(crate) fn shared(&self) -> usize
        ensures within { result ≤ length (basis_rows self.now.known) }
        ensures front { take result (basis_rows self.now.whole) ≡ shared_rows self.now }
    {
        if self.alike { self.known.len() } else { 0 }
    }
}

// Whether the first of two words stands before the second, by the verdict on them: the smaller code among equals.
#[inline]
fn before_second(verdict: Verdict, a: u64, b: u64) -> bool
    ensures { result ≡ first_stands verdict a b }
{
    match verdict {
        Verdict::First => true,
        Verdict::Second => false,
        Verdict::Equal => a < b,
    }
}
