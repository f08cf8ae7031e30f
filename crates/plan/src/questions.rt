// What is read off the words of a settled plan.
ghost use Rattle.std.specs.Prelude.{◌≡◌, ℕ, ◌-◌, ◌^◌, ◌≤◌, ◌↔◌, [], length, IsNone};
ghost use Rattle.levels.specs.Arithmetic.{two};
ghost use Rattle.levels.specs.Alias.{alias_set};
ghost use Rattle.levels.specs.Generated.{generated};
ghost use Rattle.levels.specs.Space.{Word};
ghost use Rattle.aliasing.specs.Clear.{clear_bytes};
ghost use Rattle.aliasing.specs.Pattern.{pattern, resolution};
ghost use Rattle.aliasing.specs.Runs.{is_run};
ghost use Rattle.plan.specs.Answers.{alias_member, alias_set_of, block_of, defined, run_of, runs_from, runs_of, wrote_ones};
ghost use Rattle.contents.specs.Memory.{holding, holding_ok, wrote, wrote_ok};

use crate::settled::SettledPlan;
use aliasing::{clear, members, runs};
use contents::{Refusal, Side, store};
use levels::{Levels, TwoLevels};
use preferences::preference::all_legal;

impl<L: Levels> SettledPlan<L> {
    /// Writes the wordlength pattern of the defining words: n counts, at most 32.
    pub fn pattern(&self, memory: &mut [u32]) -> Result<usize, Refusal>
        ensures stored { memory.new ≡ holding (pattern L.Levels.model self.now.factors (defined L.Levels.model self.now)) memory.old }
        ensures count { result ≡ wrote (pattern L.Levels.model self.now.factors (defined L.Levels.model self.now)) memory.old }
        ensures few { length (pattern L.Levels.model self.now.factors (defined L.Levels.model self.now)) ≤ 32 }
    {
        let n = self.factors();
        let counts = aliasing::pattern::pattern::<L>(n, self.list(Side::Defining));
        store(&counts[..usize::from(n)], memory)
    }

    /// The least length of which the defining words generate words other than code 0, and their count; absent exactly
    /// where there are no defining words.
    pub fn resolution(&self) -> Option<(u32, u32)>
        ensures value { let p = self.now in
            result ≡ resolution L.model p.factors (defined L.model p) }
        ensures absent { IsNone result ↔ (self.now.defining ≡ []) }
    {
        aliasing::pattern::resolution::<L>(self.factors(), self.list(Side::Defining))
    }

    /// Alias member m, from 0, of a word over the defining words, in ascending code.
    pub fn alias_member(&self, word: u64, m: u64) -> Result<u64, Refusal>
        ensures { result ≡ alias_member L.Levels.model word m self.now }
    {
        let n = self.factors();
        if !L::legal(n, word) {
            return Err(Refusal::Illegal);
        }
        members::alias_member::<L>(n, self.list(Side::Defining), word, m).ok_or(Refusal::Last)
    }

    /// Writes the alias set of a word over the defining words, in ascending code; tells how many words it has.
    ///
    /// Refused: an illegal code, then memory shorter than the alias set.
    pub fn alias_set(&self, word: u64, memory: &mut [u64]) -> Result<usize, Refusal>
        ensures stored { memory.new ≡ holding_ok (alias_set_of L.model word self.now) memory.old }
        ensures count { result ≡ wrote_ok (alias_set_of L.model word self.now) memory.old }
    {
        let n = self.factors();
        if !L::legal(n, word) {
            return Err(Refusal::Illegal);
        }
        if memory.len() < self.alias_set_size() {
            return Err(Refusal::Memory);
        }
        let words = self.list(Side::Defining);
        Ok(members::fill_aliases::<L>(n, words, word, memory))
    }

    // How many words the alias set of any word has: the defining words are independent.
    fn alias_set_size(&self) -> usize
        ensures { let p = self.now in
            (w : ℕ) → Word L.model p.factors w → length (alias_set L.model p.factors p.defining w) ≡ result }
    {
        let defining = self.list(Side::Defining).len();
        usize::from(L::LEVELS).pow(defining as u32)
    }
}

impl SettledPlan<TwoLevels> {
    /// Writes a byte for every pair of factors, 1 where it is clear, and tells how many are.
    pub fn clear(&self, memory: &mut [u8]) -> Result<usize, Refusal>
        ensures stored { memory.new ≡ holding (clear_bytes self.now.factors self.now.defining) memory.old }
        ensures count { result ≡ wrote_ones (clear_bytes self.now.factors self.now.defining) memory.old }
    {
        let pairs = clear::clear(self.factors(), self.list(Side::Defining));
        let ones = pairs.ones();
        store(pairs.bytes(), memory)?;
        Ok(ones)
    }

    /// Run m, from 0, in ascending code, of those in which each defining word has its letters at level 1 in even number.
    /// Each defining word halves the number of runs.
    pub fn run(&self, m: u64) -> Result<u64, Refusal>
        ensures value { result ≡ run_of m self.now }
        ensures runs { (x : ℕ) → is_run self.now.factors (generated two self.now.factors self.now.defining) x ≡ is_run self.now.factors self.now.defining x }
        ensures total { length (runs_of self.now) ≡ 2 ^ (self.now.factors - length self.now.defining) }
    {
        runs::run(self.factors(), self.list(Side::Defining), m).ok_or(Refusal::Last)
    }

    /// Writes so many runs from a place on, from 0, in ascending code; tells how many they are.
    ///
    /// Refused: a run past the last, then memory shorter than so many.
    pub fn runs(&self, first: u64, count: usize, memory: &mut [u64]) -> Result<usize, Refusal>
        ensures stored { memory.new ≡ holding_ok (runs_from first count self.now) memory.old }
        ensures count { result ≡ wrote_ok (runs_from first count self.now) memory.old }
    {
        if self.run_count() < first.saturating_add(count as u64) {
            return Err(Refusal::Last);
        }
        if memory.len() < count {
            return Err(Refusal::Memory);
        }
        let words = self.list(Side::Defining);
        Ok(runs::fill_runs(self.factors(), words, first, &mut memory[..count]))
    }

    // How many runs there are, at most 2 to the power of 32: each defining word halves their number.
    fn run_count(&self) -> u64
        ensures count { result ≡ length (runs_of self.now) }
        ensures few { result ≤ 2 ^ 32 }
    {
        let defining = self.list(Side::Defining).len() as u8;
        1 << self.factors().saturating_sub(defining)
    }

    /// The block number of a run under a list of words.
    pub fn block_number(&self, run: u64, words: &[u64]) -> Result<u32, Refusal>
        ensures { result ≡ block_of run words.now self.now }
    {
        let n = self.factors();
        if !TwoLevels::legal(n, run) {
            return Err(Refusal::Illegal);
        }
        if words.len() > TwoLevels::LIMIT {
            return Err(Refusal::Limit);
        }
        if !all_legal::<TwoLevels>(n, words) {
            return Err(Refusal::Illegal);
        }
        Ok(runs::block_number(run, words))
    }
}
