// What a settled plan can be asked, and what it replies.
ghost use Rattle.std.specs.Prelude.{◌≡◌, MatchOption, is_some};
ghost use Rattle.history.specs.Lent.{lent};
ghost use Rattle.history.specs.Questions.{answer, exists, meaning_by, stated_question};

use crate::memory::Memory;
use contents::{Refusal, Side, store};
use levels::Levels;
use page::page;
use plan::SettledPlan;
use preferences::{Preference, Scored};

/// A question, with what it is handed: a preference `P`, a scored preference `S`, a list of words `W`.
///
/// An answer of many numbers goes to the start of the memory that is lent: files, pages and clear pairs to its bytes,
/// patterns and scores to its counts, words and runs to its words.
#[derive(Clone, Copy, Drop)]
pub enum Question<P, S, W> {
    /// The number of factors.
    Factors,
    /// How many defining and how many block words there are.
    Counts,
    /// A word of a list by its place, from 1.
    Word(Side, usize),
    /// All words of a list.
    List(Side),
    /// The plan file.
    File,
    /// The best generators of a side under a preference.
    Generators(Side, P),
    /// The same under a scored preference, and their scores.
    ScoredGenerators(Side, S),
    /// The wordlength pattern.
    Pattern,
    /// The resolution and its count.
    Resolution,
    /// A member of the alias set of a word, from 0.
    AliasMember(u64, u64),
    /// The alias set of a word.
    AliasSet(u64),
    /// The trial page.
    Page,
    /// With two levels, one byte for each pair of factors, and how many pairs are clear.
    ClearPairs,
    /// With two levels, a run, from 0.
    Run(u64),
    /// With two levels, so many runs from a place on.
    Runs(u64, usize),
    /// With two levels, the block number of a run under a list of words.
    BlockNumber(u64, W),
}

/// What a call returns.
#[derive(Clone, Copy)]
pub enum Reply {
    /// A call that changes the plan acted, or was refused.
    Changed(Result<(), Refusal>),
    /// The number of factors.
    Factors(u8),
    /// How many defining and how many block words there are.
    Counts(usize, usize),
    /// A word or a run.
    Code(Result<u64, Refusal>),
    /// How much was written, or of clear pairs how many there are.
    Written(Result<usize, Refusal>),
    /// The resolution and its count; none without defining words.
    Resolution(Option<(u32, u32)>),
    /// A block number.
    Block(Result<u32, Refusal>),
}

/// Asks a settled plan; none for a question of two levels where there are others.
pub fn ask<L: Levels, P: Preference<L>, S: Scored<L>>(
    plan: &SettledPlan<L>,
    question: &Question<P, S, &[u64]>,
    memory: &mut Memory,
) -> Option<Reply>
    ensures exists { let asked = stated_question (meaning_by P.good S.good S.points) question.now in
        is_some result ≡ exists L.model asked }
    ensures answer { let asked = stated_question (meaning_by P.good S.good S.points) question.now in
        MatchOption result
        (lent memory.new ≡ lent memory.old)
        (λ reply. (reply, lent memory.new) ≡ answer L.model asked plan.now (lent memory.old)) }
{
    Some(match question {
        Question::Factors => Reply::Factors(plan.factors()),
        Question::Counts => {
            let (defining, block) = plan.counts();
            Reply::Counts(defining, block)
        }
        Question::Word(side, place) => Reply::Code(plan.word(*side, *place)),
        Question::List(side) => Reply::Written(store(plan.list(*side), &mut memory.words)),
        Question::File => Reply::Written(plan.write(&mut memory.bytes)),
        Question::Generators(side, preference) => {
            Reply::Written(plan.choose(*side, preference, &mut memory.words))
        }
        Question::ScoredGenerators(side, preference) => Reply::Written(plan.choose_scored(
            *side,
            preference,
            &mut memory.words,
            &mut memory.counts,
        )),
        Question::Pattern => Reply::Written(plan.pattern(&mut memory.counts)),
        Question::Resolution => Reply::Resolution(plan.resolution()),
        Question::AliasMember(word, m) => Reply::Code(plan.alias_member(*word, *m)),
        Question::AliasSet(word) => Reply::Written(plan.alias_set(*word, &mut memory.words)),
        Question::Page => Reply::Written(page(plan, &mut memory.bytes)),
        Question::ClearPairs => Reply::Written(plan.two_levels()?.clear(&mut memory.bytes)),
        Question::Run(m) => Reply::Code(plan.two_levels()?.run(*m)),
        Question::Runs(first, count) => {
            Reply::Written(plan.two_levels()?.runs(*first, *count, &mut memory.words))
        }
        Question::BlockNumber(run, words) => {
            Reply::Block(plan.two_levels()?.block_number(*run, *words))
        }
    })
}
