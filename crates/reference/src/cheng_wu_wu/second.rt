// The second example: eight factors with three defining words, in eight blocks. Alias sets are elements, and those of least
// aberration are wanted.
use crate::calls::settled;
use crate::cheng_wu_wu::alias_sets::{Confounded, FACTORS, SETS};
use crate::cheng_wu_wu::answers::{alias_set, generators, group};
use crate::cheng_wu_wu::letters::{codes, letters};
use crate::cheng_wu_wu::showing::show_both;
use contents::Side;
use levels::basis::generated;
use levels::{Levels, TwoLevels};
use plan::SettledPlan;
use preferences::{LeastAberration, Preference, Verdict};
use std::io;

const DEFINING: &str = "ABCF ABDG ACEH";

const GROUP: &str = "ABCF ABDG ACEH CDFG BEFH BCDEGH ADEFGH";

const BLOCKS: &str = "AC BC AD";

// The block words, best first.
const FIRST_ASSIGNMENT: &str = "AD BC AC";

const SECOND_ASSIGNMENT: &str = "AD CD DF";

// The third generator of the second assignment is taken from these sets.
const LEFT: &str = "b2b3 b1b2b3 b2 b1b2";

pub(crate) fn example(rt: &HostRuntime) -> io::Result<()> {
    println!(rt; "Cheng, Wu and Wu 2003, second example: eight factors in eight blocks")?;
    let base = codes(rt.alloc(), DEFINING)?;
    let plan = settled(FACTORS, &base, &codes(rt.alloc(), BLOCKS)?);
    let mut all = group(rt.alloc(), FACTORS, &base)?;
    all.sort_by_key(|word| TwoLevels::length(*word))?;
    show_both(rt, "defining words", GROUP, &all)?;
    println!(rt; "block words b1 b2 b3, print: {BLOCKS}")?;
    for set in &SETS {
        show_set(rt, &plan, set)?;
    }
    show_order(rt, &base)?;
    show_left(rt, &base)?;
    show_assignments(rt, &plan, &base)
}

// Prints an alias set.
fn show_set(rt: &HostRuntime, plan: &SettledPlan<TwoLevels>, set: &Confounded) -> io::Result<()> {
    let mut ours = alias_set(rt.alloc(), plan, set.element(rt.alloc())?)?;
    ours.sort_by_key(|word| TwoLevels::length(*word))?;
    show_both(rt, set.effect, set.words, &ours)
}

// Prints how each set does beside the one behind it.
fn show_order(rt: &HostRuntime, base: &[u64]) -> io::Result<()> {
    let words: Vec<u64> = SETS
        .iter()
        .map(|set| set.element(rt.alloc()))
        .try_collect(rt.alloc())?;
    let (_, later) = words.split_first().unwrap_or((&0, &[]));
    show_verdicts(rt, "each set beside the next", base, &words, later)
}

// Prints the sets that the first two generators of the second assignment leave.
fn show_left(rt: &HostRuntime, base: &[u64]) -> io::Result<()> {
    let two = codes(rt.alloc(), SECOND_ASSIGNMENT)?;
    let words: Vec<u64> = base
        .iter()
        .chain(two.iter().take(2))
        .copied()
        .collect(rt.alloc())?;
    println!(rt; "left for the third, print: {LEFT}")?;
    print!(rt; "left for the third, ours:")?;
    for set in &SETS {
        if !generated::<TwoLevels>(FACTORS, &words, set.element(rt.alloc())?) {
            let effect = set.effect;
            print!(rt; " {effect}")?;
        }
    }
    println!(rt)
}

// Prints the assignments in print, and our generators beside both.
fn show_assignments(
    rt: &HostRuntime,
    plan: &SettledPlan<TwoLevels>,
    base: &[u64],
) -> io::Result<()> {
    let ours = generators::<LeastAberration>(rt.alloc(), plan, Side::Block, &LeastAberration)?;
    let shown = letters(rt.alloc(), &ours)?;
    println!(rt; "first assignment, print, best first: {FIRST_ASSIGNMENT}")?;
    println!(rt; "second assignment, print, best first: {SECOND_ASSIGNMENT}")?;
    println!(rt; "least aberration, ours:{shown}")?;
    let first = codes(rt.alloc(), FIRST_ASSIGNMENT)?;
    show_verdicts(rt, "ours beside the first", base, &ours, &first)?;
    let second = codes(rt.alloc(), SECOND_ASSIGNMENT)?;
    show_verdicts(rt, "ours beside the second", base, &ours, &second)
}

// Prints which of two words is better at each place, by least aberration.
fn show_verdicts(
    rt: &HostRuntime,
    label: &str,
    base: &[u64],
    words: &[u64],
    others: &[u64],
) -> io::Result<()> {
    print!(rt; "{label}:")?;
    for (word, other) in words.iter().zip(others) {
        let told = told(base, *word, *other);
        print!(rt; " {told}")?;
    }
    println!(rt)
}

// How a word does beside another.
fn told(base: &[u64], word: u64, other: u64) -> &'static str {
    match Preference::<TwoLevels>::compare(&LeastAberration, FACTORS, base, word, other) {
        Verdict::First => "better",
        Verdict::Second => "worse",
        Verdict::Equal => "equal",
    }
}
