// The preferences that rules name, each made from a table of costs.
ghost use Rattle.std.specs.Prelude.{◌≡◌};
ghost use Rattle.bindings.specs.Numbers.{relation, scored_points, scored_relation};
ghost use Rattle.bindings.specs.declared.numbers.Rule.{Rule};
ghost use Rattle.bindings.specs.declared.numbers.ScoredRule.{ScoredRule};

use levels::Levels;
use preferences::{
    Cheapest, FirstThenSecond, LeastAberration, Preference, Reversed, Scored, Shortest,
};

pub(crate) type Longest = Reversed<Shortest>;

pub(crate) type CheapestThenLeastAberration = FirstThenSecond<Cheapest, LeastAberration>;

// A preference that a rule names; it may pass over the costs.
pub(crate) trait Made<L: Levels>: Preference<L> + Drop {
    ghost rule: { Rule };

    fn made(costs: [u16; 32]) -> Self
        ensures { Self.Preference.good result ≡ relation L.model costs rule };
}

impl<L: Levels> Made<L> for Shortest {
    ghost rule = { Rule.Shortest };

    fn made(_costs: [u16; 32]) -> Shortest {
        Shortest
    }
}

impl<L: Levels> Made<L> for Cheapest {
    ghost rule = { Rule.Cheapest };

    fn made(costs: [u16; 32]) -> Cheapest {
        Cheapest::new(costs)
    }
}

impl<L: Levels> Made<L> for LeastAberration {
    ghost rule = { Rule.LeastAberration };

    fn made(_costs: [u16; 32]) -> LeastAberration {
        LeastAberration
    }
}

impl<L: Levels> Made<L> for Longest {
    ghost rule = { Rule.Longest };

    fn made(_costs: [u16; 32]) -> Longest {
        Reversed(Shortest)
    }
}

impl<L: Levels> Made<L> for CheapestThenLeastAberration {
    ghost rule = { Rule.CheapestThenLeastAberration };

    fn made(costs: [u16; 32]) -> CheapestThenLeastAberration {
        FirstThenSecond {
            first: Cheapest::new(costs),
            second: LeastAberration,
        }
    }
}

// A preference that a scored rule names.
pub(crate) trait MadeScored<L: Levels>: Scored<L> + Drop {
    ghost rule: { ScoredRule };

    fn made_scored(costs: [u16; 32]) -> Self
        ensures better { Self.Preference.good result ≡ scored_relation L.model costs rule }
        ensures scores { Self.Scored.points result ≡ scored_points L.model costs rule };
}

impl<L: Levels> MadeScored<L> for Shortest {
    ghost rule = { ScoredRule.Shortest };

    fn made_scored(_costs: [u16; 32]) -> Shortest {
        Shortest
    }
}

impl<L: Levels> MadeScored<L> for Cheapest {
    ghost rule = { ScoredRule.Cheapest };

    fn made_scored(costs: [u16; 32]) -> Cheapest {
        Cheapest::new(costs)
    }
}
