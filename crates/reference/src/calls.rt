// Calls on small plans, with what they answer.
use contents::{Refusal, Side};
use levels::TwoLevels;
use plan::{OpenPlan, SettledPlan};
use preferences::Cheapest;
use std::fmt::Display;
use std::io;

// Prints what a call answered, or its refusal.
fn outcome<T: Display + Drop>(
    rt: &HostRuntime,
    call: &str,
    answer: Result<T, Refusal>,
) -> io::Result<()> {
    match answer {
        Ok(value) => println!(rt; "{call}: {value}"),
        Err(refusal) => println!(rt; "{call}: {refusal}"),
    }
}

// The same of a call that answers nothing but that it acted.
fn acted(rt: &HostRuntime, call: &str, answer: Result<(), Refusal>) -> io::Result<()> {
    outcome(rt, call, answer.map(|()| "done"))
}

// A settled plan of two levels and n factors, with the words that are admitted.
pub(crate) fn settled(n: u8, defining: &[u64], block: &[u64]) -> SettledPlan<TwoLevels> {
    let mut plan = OpenPlan::<TwoLevels>::new();
    let _ = plan.start(n);
    for word in defining {
        let _ = plan.admit(Side::Defining, *word);
    }
    for word in block {
        let _ = plan.admit(Side::Block, *word);
    }
    plan.settle()
}

// Starts, admissions and strikes at their limits.
pub(crate) fn limits(rt: &HostRuntime) -> io::Result<()> {
    let mut plan = OpenPlan::<TwoLevels>::new();
    acted(rt, "start 0", plan.start(0))?;
    acted(rt, "start 33", plan.start(33))?;
    acted(rt, "start 32", plan.start(32))?;
    acted(rt, "start 6", plan.start(6))?;
    acted(rt, "admit 63 of 6 factors", plan.admit(Side::Defining, 63))?;
    acted(rt, "admit 64 of 6 factors", plan.admit(Side::Defining, 64))?;
    acted(rt, "admit 0", plan.admit(Side::Block, 0))?;
    acted(rt, "admit 63 again", plan.admit(Side::Block, 63))?;
    acted(rt, "strike place 2", plan.strike(Side::Defining, 2))?;
    acted(rt, "strike place 0", plan.strike(Side::Defining, 0))?;
    acted(rt, "strike place 1", plan.strike(Side::Defining, 1))?;
    acted(rt, "admit 63 after the strike", plan.admit(Side::Block, 63))?;
    let _ = plan.start(17);
    for letter in 0..16u32 {
        let _ = plan.admit(Side::Defining, 1 << letter);
    }
    acted(
        rt,
        "admit a seventeenth word",
        plan.admit(Side::Block, 65536),
    )?;
    acted(rt, "admit a held word", plan.admit(Side::Block, 1))
}

// The questions about three factors with the defining word 7.
pub(crate) fn three_factors(rt: &HostRuntime) -> io::Result<()> {
    let plan = settled(3, &[7], &[]);
    outcome(rt, "write into 16 bytes", plan.write(&mut [0; 16]))?;
    outcome(rt, "write into 17 bytes", plan.write(&mut [0; 17]))?;
    outcome(rt, "word at place 1", plan.word(Side::Defining, 1))?;
    outcome(rt, "word at place 2", plan.word(Side::Defining, 2))?;
    for m in 0..5u64 {
        outcome(rt, "run", plan.run(m))?;
    }
    Ok(())
}

// The aliases of 6 over the defining words 39, 75, 149 of eight factors.
pub(crate) fn aliases(rt: &HostRuntime) -> io::Result<()> {
    let plan = settled(8, &[39, 75, 149], &[5, 6, 9]);
    for m in 0..9u64 {
        outcome(rt, "alias of 6", plan.alias_member(6, m))?;
    }
    outcome(rt, "alias of 256", plan.alias_member(256, 0))
}

// The cheapest generators, with their scores.
pub(crate) fn cheapest(rt: &HostRuntime) -> io::Result<()> {
    let mut words = [0; 16];
    let mut costs = [0; 32];
    costs[..3].copy_from_slice(&[1, 5, 1]);
    let mut scores = [0; 16];
    let plan = settled(3, &[], &[3, 5]);
    let cheapest = Cheapest::new(costs);
    outcome(
        rt,
        "cheapest",
        plan.choose_scored(Side::Block, &cheapest, &mut words, &mut scores),
    )?;
    for (word, score) in words.iter().zip(&scores).take(2) {
        println!(rt; "word {word} score {score}")?;
    }
    outcome(
        rt,
        "cheapest into no memory",
        plan.choose_scored(Side::Block, &cheapest, &mut words, &mut [0; 1]),
    )
}
