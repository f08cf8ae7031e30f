// The third example: nine factors with four defining words, whose generators are to be as short as can be.
use crate::calls::settled;
use crate::cheng_wu_wu::answers::{generators, group};
use crate::cheng_wu_wu::letters::codes;
use crate::cheng_wu_wu::showing::{show_both, show_generators};
use contents::Side;
use levels::{Levels, TwoLevels};
use preferences::Shortest;
use std::io;

const FACTORS: u8 = 9;

const DEFINING: &str = "ABCDF ABCEG BDEH CDEI";

const GROUP: &str =
    "BFGH CFGI DEFG BCHI BDEH CDEI ABCDF ABCEG ABDGI ABEFI ACDGH ACEFH ADFHI AEGHI BCDEFGHI";

const SHORTEST: &str = "BFGH CFGI DEFG ABCDF";

const ALSO_SHORTEST: &str = "BFGH CFGI BDEH ABCDF";

pub(crate) fn example(rt: &HostRuntime) -> io::Result<()> {
    println!(rt; "Cheng, Wu and Wu 2003, third example: nine factors, shortest generators")?;
    let defining = codes(rt.alloc(), DEFINING)?;
    let mut all = group(rt.alloc(), FACTORS, &defining)?;
    all.sort_by_key(|word| TwoLevels::length(*word))?;
    show_both(rt, "group", GROUP, &all)?;
    let printed = codes(rt.alloc(), SHORTEST)?;
    show_generators(rt, "shortest, print", &printed, FACTORS, &all)?;
    let also = codes(rt.alloc(), ALSO_SHORTEST)?;
    show_generators(rt, "others as short, print", &also, FACTORS, &all)?;
    let plan = settled(FACTORS, &defining, &[]);
    let ours = generators::<Shortest>(rt.alloc(), &plan, Side::Defining, &Shortest)?;
    show_generators(rt, "shortest, ours", &ours, FACTORS, &all)
}
