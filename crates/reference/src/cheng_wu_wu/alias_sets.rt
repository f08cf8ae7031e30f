// The alias sets of the second example in print, and a word of each.
use crate::cheng_wu_wu::letters::codes;
use levels::{Levels, TwoLevels};
use std::alloc::{AllocError, Global};

pub(crate) const FACTORS: u8 = 8;

// An alias set: the block effect that is confounded with it, the block words whose sum that is, and all words.
pub(crate) struct Confounded {
    pub(crate) effect: &'static str,
    pub(crate) blocks: &'static str,
    pub(crate) words: &'static str,
}

// In the order of print.
pub(crate) static SETS: [Confounded; 7] = [
    Confounded {
        effect: "b3",
        blocks: "AD",
        words: "AD BG BCDF CDEH ACFG EFGH ABDEFH ABCEGH",
    },
    Confounded {
        effect: "b1b3",
        blocks: "AC AD",
        words: "CD FG ABDF ABCG ADEH BEGH ACEFGH BCDEFH",
    },
    Confounded {
        effect: "b2b3",
        blocks: "BC AD",
        words: "DF CG ABCD BDEH ABFG AEGH ACDEFH BCEFGH",
    },
    Confounded {
        effect: "b1b2b3",
        blocks: "AC BC AD",
        words: "AG BD ACDF BCFG DEFH CEGH ABCDEH ABEFGH",
    },
    Confounded {
        effect: "b2",
        blocks: "BC",
        words: "BC AF ACDG ABEH BDFG CEFH DEGH ABCDEFGH",
    },
    Confounded {
        effect: "b1",
        blocks: "AC",
        words: "AC BF EH BCDG ADFG ABDEGH ABCEFH CDEFGH",
    },
    Confounded {
        effect: "b1b2",
        blocks: "AC BC",
        words: "AB CF DG BCEH AEFH ABCDFG ACDEGH BDEFGH",
    },
];

impl Confounded {
    // A word of the set: the sum of its block words.
    pub(crate) fn element(&self, alloc: Global) -> Result<u64, AllocError> {
        let mut sum = 0;
        for word in &codes(alloc, self.blocks)? {
            sum = TwoLevels::sum(FACTORS, sum, *word);
        }
        Ok(sum)
    }
}
