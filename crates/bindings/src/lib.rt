// The library for callers in Rust and C: a plan file in, one call, an answer or the number of a refusal out.
// C hands over levels, a side and a preference by number.
#![tactic(auto)]

// A call at the levels of a number, or the refusal of the number.
macro_rules! by_levels {
    ($levels:expr, $call:ident($($argument:expr),*)) => {
        match LevelCount::try_from($levels) {
            Ok(LevelCount::Two) => $call::<levels::TwoLevels>($($argument),*),
            Ok(LevelCount::Three) => $call::<levels::ThreeLevels>($($argument),*),
            Err(unknown) => Err(unknown),
        }
    };
}

// A call at the preference of a rule: a function for each, which clears the memory of no other preference.
macro_rules! by_rule {
    ($rule:expr, $call:ident::<$levels:ident>($($argument:expr),*)) => {
        match $rule {
            Rule::Shortest => $call::<$levels, preferences::Shortest>($($argument),*),
            Rule::Cheapest => $call::<$levels, preferences::Cheapest>($($argument),*),
            Rule::LeastAberration => $call::<$levels, preferences::LeastAberration>($($argument),*),
            Rule::Longest => $call::<$levels, $crate::made::Longest>($($argument),*),
            Rule::CheapestThenLeastAberration => {
                $call::<$levels, $crate::made::CheapestThenLeastAberration>($($argument),*)
            }
        }
    };
}

mod changes;
mod file;
mod filling;
mod generators;
mod made;
mod numbers;
pub mod outcome;
mod questions;
pub mod refused;
mod scored;
mod trial_page;
mod two_levels;
mod verdicts;
