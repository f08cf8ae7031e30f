// What settled plans answer, as lists.
use crate::calls::settled;
use contents::{Refusal, Side};
use levels::TwoLevels;
use plan::SettledPlan;
use preferences::Preference;
use std::alloc::{AllocError, Global};

// No group of an example has more words.
const MOST: usize = 16;

// The alias set of a word, in ascending code.
pub(crate) fn alias_set(
    alloc: Global,
    plan: &SettledPlan<TwoLevels>,
    word: u64,
) -> Result<Vec<u64>, AllocError> {
    let mut memory = [0; MOST];
    let answer = plan.alias_set(word, &mut memory);
    written(alloc, answer, &memory)
}

// The words other than code 0 that a list generates, in ascending code: they are the aliases of code 0 over it.
pub(crate) fn group(alloc: Global, n: u8, words: &[u64]) -> Result<Vec<u64>, AllocError> {
    let mut all = alias_set(alloc, &settled(n, words, &[]), 0)?;
    all.retain(|word| *word != 0);
    Ok(all)
}

// The best generators of a side.
pub(crate) fn generators<P: Preference<TwoLevels>>(
    alloc: Global,
    plan: &SettledPlan<TwoLevels>,
    side: Side,
    preference: &P,
) -> Result<Vec<u64>, AllocError> {
    let mut memory = [0; MOST];
    let answer = plan.choose::<P>(side, preference, &mut memory);
    written(alloc, answer, &memory)
}

// The words that were written into memory; none where the question was refused.
fn written(
    alloc: Global,
    answer: Result<usize, Refusal>,
    memory: &[u64],
) -> Result<Vec<u64>, AllocError> {
    memory
        .iter()
        .copied()
        .take(answer.unwrap_or(0))
        .collect(alloc)
}
