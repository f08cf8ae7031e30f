// What a number stands for that a caller hands over.
ghost use Rattle.std.specs.Prelude.{◌≡◌};
ghost use Rattle.bindings.specs.Numbers.{level_count_by, rule_by, scored_rule_by, side_by, verdict_number};

use crate::refused::Refused;
use contents::Side;
use preferences::Verdict;

/// The costs of 32 factors, factor 1 first.
#[repr(C)]
#[derive(Clone, Copy)]
pub struct Costs {
    pub table: [u16; 32],
}

// The numbers of levels that a caller can name.
#[derive(Clone, Copy)]
pub(crate) enum LevelCount {
    Two,
    Three,
}

impl TryFrom<u8> for LevelCount {
    type Error = Refused;

    ghost try_from_gives = { λ number count. count ≡ level_count_by number };

    fn try_from(number: u8) -> Result<LevelCount, Refused> {
        match number {
            2 => Ok(LevelCount::Two),
            3 => Ok(LevelCount::Three),
            _ => Err(Refused::Unknown),
        }
    }
}

// The preferences that a caller can name.
#[derive(Clone, Copy)]
pub(crate) enum Rule {
    Shortest,
    Cheapest,
    LeastAberration,
    Longest,
    CheapestThenLeastAberration,
}

impl TryFrom<u8> for Rule {
    type Error = Refused;

    ghost try_from_gives = { λ number rule. rule ≡ rule_by number };

    fn try_from(number: u8) -> Result<Rule, Refused> {
        match number {
            0 => Ok(Rule::Shortest),
            1 => Ok(Rule::Cheapest),
            2 => Ok(Rule::LeastAberration),
            3 => Ok(Rule::Longest),
            4 => Ok(Rule::CheapestThenLeastAberration),
            _ => Err(Refused::Unknown),
        }
    }
}

// The scored preferences that a caller can name.
#[derive(Clone, Copy)]
pub(crate) enum ScoredRule {
    Shortest,
    Cheapest,
}

impl TryFrom<u8> for ScoredRule {
    type Error = Refused;

    ghost try_from_gives = { λ number rule. rule ≡ scored_rule_by number };

    fn try_from(number: u8) -> Result<ScoredRule, Refused> {
        match number {
            0 => Ok(ScoredRule::Shortest),
            1 => Ok(ScoredRule::Cheapest),
            _ => Err(Refused::Unknown),
        }
    }
}

// The side that a number names.
pub(crate) fn side_by(number: u8) -> Result<Side, Refused>
    ensures { result ≡ side_by number }
{
    match number {
        0 => Ok(Side::Defining),
        1 => Ok(Side::Block),
        _ => Err(Refused::Unknown),
    }
}

// 0 where the words are equal, 1 where the first is better, 2 where the second is.
pub(crate) fn verdict_number(verdict: Verdict) -> u64
    ensures { result ≡ verdict_number verdict }
{
    match verdict {
        Verdict::Equal => 0,
        Verdict::First => 1,
        Verdict::Second => 2,
    }
}
