// What a preference says of two words.
ghost use Rattle.std.specs.Prelude.{◌≡◌};
ghost use Rattle.preferences.specs.Verdicts.{verdict};
ghost use Rattle.bindings.specs.Numbers.{at_levels, relation};
ghost use Rattle.bindings.specs.Outcomes.{outcome_of};
ghost use Rattle.bindings.specs.Questions.{verdict_by};

use crate::made::Made;
use crate::numbers::{Costs, LevelCount, Rule, verdict_number};
use crate::outcome::Outcome;
use crate::refused::Refused;
use levels::Levels;
use preferences::{Preference, Verdict};

// By the preference of a rule.
#[inline(never)]
fn compare<L: Levels, P: Made<L>>(costs: [u16; 32], n: u8, base: &[u64], a: u64, b: u64) -> Verdict
    ensures { result ≡ verdict L.model (relation L.model costs P.rule) n base.now a b }
{
    P::made(costs).compare(n, base, a, b)
}

// The number of the verdict, by the number of a preference and the costs that it may need.
fn compare_by<L: Levels>(
    preference: u8,
    costs: [u16; 32],
    n: u8,
    base: &[u64],
    a: u64,
    b: u64,
) -> Result<u64, Refused>
    ensures { result ≡ verdict_by L.model preference costs n base.now a b }
{
    let rule = Rule::try_from(preference)?;
    let verdict = by_rule!(rule, compare::<L>(costs, n, base, a, b));
    Ok(verdict_number(verdict))
}

/// Which of two codes is better, for n factors and a base list: 0 neither, 1 the first, 2 the second.
#[unsafe(no_mangle)]
pub extern "C" fn zorilla_verdict(
    levels: u8,
    preference: u8,
    costs: &Costs,
    n: u8,
    base: &[u64],
    a: u64,
    b: u64,
) -> Outcome
    ensures { let costs = costs.now.table in
        let answer = at_levels levels (λ A. verdict_by A preference costs n base.now a b) in
        result ≡ outcome_of answer }
{
    by_levels!(levels, compare_by(preference, costs.table, n, base, a, b)).into()
}
