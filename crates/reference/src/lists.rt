// Fixed lists of calls, whose plan is settled in the end.
use contents::Side;
use history::{
    Answer, Call, Memory, Outcome, Question, Reply, Trial, best_generators_and_equal_answers,
};
use levels::TwoLevels;
use plan::SettledPlan;
use preferences::{Cheapest, Longest, Reversed, Shortest};
use std::alloc::{AllocError, Global};
use std::io;

// What a list of calls answered, and the settled plan that it left.
#[derive(Drop)]
pub(crate) struct Settled {
    pub(crate) answers: Vec<Answer>,
    pub(crate) plan: SettledPlan<TwoLevels>,
}

// Six factors with four block words are settled, and asked for their longest generators.
pub(crate) fn longest_of_six_factors(alloc: Global) -> Result<Settled, AllocError> {
    let calls: [Call<&[u8], Question<Longest, Cheapest, &[u64]>>; 7] = [
        Call::Start(6),
        Call::Admit(Side::Block, 3),
        Call::Admit(Side::Block, 12),
        Call::Admit(Side::Block, 21),
        Call::Admit(Side::Block, 37),
        Call::Settle,
        Call::Ask(Question::Generators(Side::Block, Reversed(Shortest))),
    ];
    let mut memory = Memory {
        bytes: Vec::new(alloc),
        counts: Vec::new(alloc),
        words: vec![in alloc; 0; 5]?,
    };
    let Outcome { answers, plan } = best_generators_and_equal_answers::<
        TwoLevels,
        Longest,
        Cheapest,
    >(alloc, &calls, &mut memory)?;
    drop(memory);
    match plan {
        Some(Trial::Settled(plan)) => Ok(Settled { answers, plan }),
        _ => unreachable!(),
    }
}

// A question to an open plan ends its list: the answers before it stand, and no plan is left.
fn asked_while_open(alloc: Global) -> Result<Outcome<TwoLevels>, AllocError> {
    let calls: [Call<&[u8], Question<Shortest, Cheapest, &[u64]>>; 3] = [
        Call::Start(3),
        Call::Ask(Question::Pattern),
        Call::Admit(Side::Defining, 7),
    ];
    let mut memory = Memory {
        bytes: Vec::new(alloc),
        counts: vec![in alloc; 0; 3]?,
        words: Vec::new(alloc),
    };
    let outcome = best_generators_and_equal_answers::<TwoLevels, Shortest, Cheapest>(
        alloc,
        &calls,
        &mut memory,
    )?;
    drop(memory);
    Ok(outcome)
}

// Prints an answer of the first list: whether a call acted, or how many words were written and the lent words.
fn show(rt: &HostRuntime, answer: &Answer) -> io::Result<()> {
    match answer.reply {
        Reply::Changed(Ok(())) => println!(rt; "done"),
        Reply::Changed(Err(refusal)) => println!(rt; "{refusal}"),
        Reply::Written(Ok(count)) => {
            println!(rt; "wrote {count}")?;
            for word in &answer.memory.words {
                println!(rt; "lent word {word}")?;
            }
            Ok(())
        }
        Reply::Written(Err(refusal)) => println!(rt; "{refusal}"),
        _ => println!(rt; "another answer"),
    }
}

// Prints what the lists answer.
pub(crate) fn lists(rt: &HostRuntime) -> io::Result<()> {
    println!(rt; "a list of calls on six factors")?;
    let settled = longest_of_six_factors(rt.alloc())?;
    for answer in &settled.answers {
        show(rt, answer)?;
    }
    let (defining, block) = settled.plan.counts();
    println!(rt; "left settled with {defining} defining and {block} block words")?;
    println!(rt; "a question to an open plan")?;
    let outcome = asked_while_open(rt.alloc())?;
    let answered = outcome.answers.len();
    let left = if outcome.plan.is_some() { "a" } else { "no" };
    println!(rt; "{answered} answered, {left} plan left")
}
