// The preferences that a script names.
ghost use Rattle.std.specs.Prelude.{◌≡◌, ℕ, List};
ghost use Rattle.levels.specs.Arithmetic.{Arithmetic};
ghost use Rattle.preferences.specs.Built.{reversed};
ghost use Rattle.trialplan.specs.Ranking.{one_good, ranking_good, rule_good, score_good, score_points};
ghost use Rattle.trialplan.specs.RankingLaws.{one_laws, ranking_laws, rule_laws, score_laws};

use levels::{Levels, Span};
use preferences::{
    Candidate, Cheapest, FirstThenSecond, LeastAberration, Preference, Reversed, Scored, Shortest,
    Verdict,
};

/// A preference that also scores words.
#[derive(Clone, Copy)]
pub enum Score {
    Shortest,
    Cheapest(Cheapest),
}

impl<L: Levels> Preference<L> for Score {
    ghost good = { λ self. score_good L.model self };

    ghost lawful = { λ self. score_laws L.model self };

    fn prefer(&self, base: &Span<L>, a: u64, b: u64) -> Verdict {
        match self {
            Score::Shortest => Shortest.prefer(base, a, b),
            Score::Cheapest(cheapest) => cheapest.prefer(base, a, b),
        }
    }
}

impl<L: Levels> Scored<L> for Score {
    ghost points = { λ self. score_points L.model self };

    fn score(&self, n: u8, word: u64) -> u32 {
        match self {
            Score::Shortest => Scored::<L>::score(&Shortest, n, word),
            Score::Cheapest(cheapest) => Scored::<L>::score(cheapest, n, word),
        }
    }
}

/// A preference of its own.
#[derive(Clone, Copy)]
pub enum Rule {
    Score(Score),
    LeastAberration,
}

impl<L: Levels> Preference<L> for Rule {
    ghost good = { λ self. rule_good L.model self };

    ghost lawful = { λ self. rule_laws L.model L.lawful self };

    fn prefer(&self, base: &Span<L>, a: u64, b: u64) -> Verdict {
        match self {
            Rule::Score(score) => score.prefer(base, a, b),
            Rule::LeastAberration => LeastAberration.prefer(base, a, b),
        }
    }

    fn equates_aliases(&self) -> bool {
        match self {
            Rule::Score(_) => false,
            Rule::LeastAberration => Preference::<L>::equates_aliases(&LeastAberration),
        }
    }

    fn ready(&self, base: &Span<L>, word: u64) -> Candidate {
        match self {
            Rule::Score(score) => score.ready(base, word),
            Rule::LeastAberration => LeastAberration.ready(base, word),
        }
    }

    fn prefer_ready(&self, base: &Span<L>, a: &Candidate, b: &Candidate) -> Verdict {
        match self {
            Rule::Score(score) => score.prefer_ready(base, a, b),
            Rule::LeastAberration => LeastAberration.prefer_ready(base, a, b),
        }
    }
}

/// A rule, as it is or turned round.
#[derive(Clone, Copy)]
pub enum One {
    Plain(Rule),
    Reversed(Reversed<Rule>),
}

impl One {
    /// The same, turned round.
    pub fn turned(self) -> One
        ensures { (A : Arithmetic) → one_good A result ≡ reversed (one_good A self) }
    {
        match self {
            One::Plain(rule) => One::Reversed(Reversed(rule)),
            One::Reversed(Reversed(rule)) => One::Plain(rule),
        }
    }
}

impl<L: Levels> Preference<L> for One {
    ghost good = { λ self. one_good L.model self };

    ghost lawful = { λ self. one_laws L.model L.lawful self };

    fn prefer(&self, base: &Span<L>, a: u64, b: u64) -> Verdict {
        match self {
            One::Plain(rule) => rule.prefer(base, a, b),
            One::Reversed(reversed) => reversed.prefer(base, a, b),
        }
    }

    fn equates_aliases(&self) -> bool {
        match self {
            One::Plain(rule) => Preference::<L>::equates_aliases(rule),
            One::Reversed(reversed) => Preference::<L>::equates_aliases(reversed),
        }
    }

    fn ready(&self, base: &Span<L>, word: u64) -> Candidate {
        match self {
            One::Plain(rule) => rule.ready(base, word),
            One::Reversed(reversed) => reversed.ready(base, word),
        }
    }

    fn prefer_ready(&self, base: &Span<L>, a: &Candidate, b: &Candidate) -> Verdict {
        match self {
            One::Plain(rule) => rule.prefer_ready(base, a, b),
            One::Reversed(reversed) => reversed.prefer_ready(base, a, b),
        }
    }
}

/// One preference, or two of which the second decides where the first finds the words equal.
#[derive(Clone, Copy)]
pub enum Ranking {
    One(One),
    Two(FirstThenSecond<One, One>),
}

impl<L: Levels> Preference<L> for Ranking {
    ghost good = { λ self. ranking_good L.model self };

    ghost lawful = { λ self. ranking_laws L.model L.lawful self };

    fn prefer(&self, base: &Span<L>, a: u64, b: u64) -> Verdict {
        match self {
            Ranking::One(one) => one.prefer(base, a, b),
            Ranking::Two(two) => two.prefer(base, a, b),
        }
    }

    fn equates_aliases(&self) -> bool {
        match self {
            Ranking::One(one) => Preference::<L>::equates_aliases(one),
            Ranking::Two(two) => Preference::<L>::equates_aliases(two),
        }
    }

    fn ready(&self, base: &Span<L>, word: u64) -> Candidate {
        match self {
            Ranking::One(one) => one.ready(base, word),
            Ranking::Two(two) => two.ready(base, word),
        }
    }

    fn prefer_ready(&self, base: &Span<L>, a: &Candidate, b: &Candidate) -> Verdict {
        match self {
            Ranking::One(one) => one.prefer_ready(base, a, b),
            Ranking::Two(two) => two.prefer_ready(base, a, b),
        }
    }
}
