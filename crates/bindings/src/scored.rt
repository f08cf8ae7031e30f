// Scores, and generators with their scores.
ghost use Rattle.std.specs.Prelude.{◌≡◌};
ghost use Rattle.planfile.specs.File.{read_file};
ghost use Rattle.bindings.specs.Asked.{left_scores, left_words, seen, told_both};
ghost use Rattle.bindings.specs.Numbers.{at_levels};
ghost use Rattle.bindings.specs.Outcomes.{outcome_of};
ghost use Rattle.bindings.specs.Questions.{scored, scored_in};

use crate::file::settle;
use crate::made::MadeScored;
use crate::numbers::{Costs, LevelCount, ScoredRule, side_by};
use crate::outcome::Outcome;
use crate::refused::Refused;
use contents::Side;
use levels::Levels;
use preferences::{Cheapest, Shortest};

// By the preference of a scored rule.
#[inline(never)]
fn choose_scored<L: Levels, P: MadeScored<L>>(
    file: &[u8],
    side: Side,
    costs: [u16; 32],
    words: &mut [u64],
    scores: &mut [u32],
) -> Result<usize, Refused>
    ensures count { let answer = scored L.model costs P.rule side in
        let best = seen (read_file L.model file.now) answer in
        result ≡ told_both best words.old scores.old }
    ensures words { let answer = scored L.model costs P.rule side in
        let best = seen (read_file L.model file.now) answer in
        words.new ≡ left_words best words.old scores.old }
    ensures scores { let answer = scored L.model costs P.rule side in
        let best = seen (read_file L.model file.now) answer in
        scores.new ≡ left_scores best words.old scores.old }
{
    let preference = P::made_scored(costs);
    Ok(settle::<L>(file)?.choose_scored(side, &preference, words, scores)?)
}

// By the number of a scored preference and the costs that it may need.
fn choose_scored_by<L: Levels>(
    file: &[u8],
    side: u8,
    preference: u8,
    costs: [u16; 32],
    words: &mut [u64],
    scores: &mut [u32],
) -> Result<usize, Refused>
    ensures count { let best = scored_in L.model file.now side preference costs in
        result ≡ told_both best words.old scores.old }
    ensures words { let best = scored_in L.model file.now side preference costs in
        words.new ≡ left_words best words.old scores.old }
    ensures scores { let best = scored_in L.model file.now side preference costs in
        scores.new ≡ left_scores best words.old scores.old }
{
    let side = side_by(side)?;
    match ScoredRule::try_from(preference)? {
        ScoredRule::Shortest => choose_scored::<L, Shortest>(file, side, costs, words, scores),
        ScoredRule::Cheapest => choose_scored::<L, Cheapest>(file, side, costs, words, scores),
    }
}

/// Writes the best generators and their scores into two memories; the value is how many there are.
#[unsafe(no_mangle)]
pub extern "C" fn zorilla_choose_scored(
    levels: u8,
    file: &[u8],
    side: u8,
    preference: u8,
    costs: &Costs,
    words: &mut [u64],
    scores: &mut [u32],
) -> Outcome
    ensures count { let costs = costs.now.table in
        let best = at_levels levels (λ A. scored_in A file.now side preference costs) in
        result ≡ outcome_of (told_both best words.old scores.old) }
    ensures words { let costs = costs.now.table in
        let best = at_levels levels (λ A. scored_in A file.now side preference costs) in
        words.new ≡ left_words best words.old scores.old }
    ensures scores { let costs = costs.now.table in
        let best = at_levels levels (λ A. scored_in A file.now side preference costs) in
        scores.new ≡ left_scores best words.old scores.old }
{
    by_levels!(
        levels,
        choose_scored_by(file, side, preference, costs.table, words, scores)
    )
    .into()
}
