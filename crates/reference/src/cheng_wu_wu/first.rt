// The first example: six factors in sixteen blocks, whose block generators are to be as long as can be.
use crate::calls::settled;
use crate::cheng_wu_wu::answers::{generators, group};
use crate::cheng_wu_wu::letters::codes;
use crate::cheng_wu_wu::showing::{show_both, show_generators};
use contents::Side;
use levels::basis::generated;
use levels::{Levels, TwoLevels};
use preferences::{Longest, Reversed, Shortest};
use std::cmp::Reverse;
use std::io;

const FACTORS: u8 = 6;

const GROUP: &str = "ABCDEF ABCD ABEF CDEF ACE ACF ADE ADF BCE BCF BDE BDF AB CD EF";

const FIRST_ASSIGNMENT: &str = "AB CD ACE ACF";

const SECOND_ASSIGNMENT: &str = "ABCDEF ABCD ABEF ACE";

// From these the fourth generator is taken.
const LEFT: &str = "ACE ACF ADE ADF BCE BCF BDE BDF";

pub(crate) fn example(rt: &HostRuntime) -> io::Result<()> {
    println!(rt; "Cheng, Wu and Wu 2003, first example: six factors in sixteen blocks")?;
    let first = codes(rt.alloc(), FIRST_ASSIGNMENT)?;
    let second = codes(rt.alloc(), SECOND_ASSIGNMENT)?;
    let mut all = group(rt.alloc(), FACTORS, &first)?;
    all.sort_by_key(|word| Reverse(TwoLevels::length(*word)))?;
    show_both(rt, "group", GROUP, &all)?;
    let plan = settled(FACTORS, &[], &first);
    let ours = generators::<Longest>(rt.alloc(), &plan, Side::Block, &Reversed(Shortest))?;
    show_generators(rt, "first assignment, print", &first, FACTORS, &all)?;
    show_generators(rt, "second assignment, print", &second, FACTORS, &all)?;
    show_generators(rt, "longest, ours", &ours, FACTORS, &all)?;
    let three: Vec<u64> = ours.iter().copied().take(3).collect(rt.alloc())?;
    all.retain(|word| !generated::<TwoLevels>(FACTORS, &three, *word));
    show_both(rt, "left for the fourth", LEFT, &all)
}
