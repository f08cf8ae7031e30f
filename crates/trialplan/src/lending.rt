// The calls that a request makes, with what they are handed lent to them.
use crate::ranking::{Ranking, Score};
use crate::request::{Asked, Request};
use history::{Call, Question};
use std::alloc::AllocError;

/// A call with the bytes of its file and its list of words.
pub type LentCall<'b> = Call<&'b [u8], Question<Ranking, Score, &'b [u64]>>;

impl Request<'_> {
    /// Adds the calls that it makes to a list, with the bytes of the file that it reads.
    ///
    /// For clear pairs the plan is first asked how many factors it has, since that tells how many pairs there are.
    pub fn add_calls<'b>(
        &'b self,
        file: &'b [u8],
        calls: &mut Vec<LentCall<'b>>,
    ) -> Result<(), AllocError> {
        match self {
            Request::Call(call) => calls.push(lent(call, file))?,
            Request::Write(_) => calls.push(Call::Ask(Question::File))?,
            Request::Clear => {
                calls.push(Call::Ask(Question::Factors))?;
                calls.push(Call::Ask(Question::ClearPairs))?;
            }
        }
        Ok(())
    }
}

// A call with the bytes of its file.
fn lent<'b>(call: &'b Call<&str, Asked>, file: &'b [u8]) -> LentCall<'b> {
    match call {
        Call::Start(n) => Call::Start(*n),
        Call::Read(_) => Call::Read(file),
        Call::Admit(side, word) => Call::Admit(*side, *word),
        Call::Strike(side, place) => Call::Strike(*side, *place),
        Call::Settle => Call::Settle,
        Call::Reopen => Call::Reopen,
        Call::Ask(question) => Call::Ask(lent_question(question)),
    }
}

// A question with its list of words.
fn lent_question(question: &Asked) -> Question<Ranking, Score, &[u64]> {
    match question {
        Question::Factors => Question::Factors,
        Question::Counts => Question::Counts,
        Question::Word(side, place) => Question::Word(*side, *place),
        Question::List(side) => Question::List(*side),
        Question::File => Question::File,
        Question::Generators(side, ranking) => Question::Generators(*side, *ranking),
        Question::ScoredGenerators(side, score) => Question::ScoredGenerators(*side, *score),
        Question::Pattern => Question::Pattern,
        Question::Resolution => Question::Resolution,
        Question::AliasMember(word, m) => Question::AliasMember(*word, *m),
        Question::AliasSet(word) => Question::AliasSet(*word),
        Question::Page => Question::Page,
        Question::ClearPairs => Question::ClearPairs,
        Question::Run(m) => Question::Run(*m),
        Question::Runs(first, count) => Question::Runs(*first, *count),
        Question::BlockNumber(run, words) => Question::BlockNumber(*run, words),
    }
}
