// The generators of a side by a preference.
ghost use Rattle.std.specs.Prelude.{◌≡◌};
ghost use Rattle.plan.specs.Answers.{chosen};
ghost use Rattle.planfile.specs.File.{read_file};
ghost use Rattle.bindings.specs.Asked.{left, seen, told};
ghost use Rattle.bindings.specs.Numbers.{at_levels, relation};
ghost use Rattle.bindings.specs.Outcomes.{outcome_of};
ghost use Rattle.bindings.specs.Questions.{generators_in};

use crate::file::settle;
use crate::made::Made;
use crate::numbers::{Costs, LevelCount, Rule, side_by};
use crate::outcome::Outcome;
use crate::refused::Refused;
use contents::Side;
use levels::Levels;

// By the preference of a rule.
#[inline(never)]
fn choose<L: Levels, P: Made<L>>(
    file: &[u8],
    side: Side,
    costs: [u16; 32],
    memory: &mut [u64],
) -> Result<usize, Refused>
    ensures count { let best = chosen L.model (relation L.model costs P.rule) side in
        result ≡ told (seen (read_file L.model file.now) best) memory.old }
    ensures stored { let best = chosen L.model (relation L.model costs P.rule) side in
        memory.new ≡ left (seen (read_file L.model file.now) best) memory.old }
{
    let preference = P::made(costs);
    Ok(settle::<L>(file)?.choose(side, &preference, memory)?)
}

// By the number of a preference and the costs that it may need.
fn choose_by<L: Levels>(
    file: &[u8],
    side: u8,
    preference: u8,
    costs: [u16; 32],
    memory: &mut [u64],
) -> Result<usize, Refused>
    ensures count { let best = generators_in L.model file.now side preference costs in
        result ≡ told best memory.old }
    ensures stored { let best = generators_in L.model file.now side preference costs in
        memory.new ≡ left best memory.old }
{
    let side = side_by(side)?;
    let rule = Rule::try_from(preference)?;
    by_rule!(rule, choose::<L>(file, side, costs, memory))
}

/// Writes the best generators into memory; the value is how many there are.
#[unsafe(no_mangle)]
pub extern "C" fn zorilla_choose(
    levels: u8,
    file: &[u8],
    side: u8,
    preference: u8,
    costs: &Costs,
    memory: &mut [u64],
) -> Outcome
    ensures answer { let costs = costs.now.table in
        let best = at_levels levels (λ A. generators_in A file.now side preference costs) in
        result ≡ outcome_of (told best memory.old) }
    ensures stored { let costs = costs.now.table in
        let best = at_levels levels (λ A. generators_in A file.now side preference costs) in
        memory.new ≡ left best memory.old }
{
    by_levels!(
        levels,
        choose_by(file, side, preference, costs.table, memory)
    )
    .into()
}
