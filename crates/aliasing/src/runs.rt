// Runs of a two-level trial, and the blocks that they fall into.
ghost use Rattle.std.specs.Prelude.{◌≡◌, ℕ, suc, ◌-◌, ◌%◌, ◌^◌, ◌<◌, ◌≤◌, min, true, List, length, take, drop, MatchOption, ◌==◌, slice_index};
ghost use Rattle.levels.specs.Arithmetic.{two};
ghost use Rattle.levels.specs.Words.{legal};
ghost use Rattle.levels.specs.Space.{AllWords};
ghost use Rattle.levels.specs.Generated.{generated, Independent};
ghost use Rattle.aliasing.specs.Filled.{filled};
ghost use Rattle.aliasing.specs.Runs.{block_number, is_run, letters_at_one, Run, runs_below, runs_upto};
ghost use Rattle.aliasing.specs.Table.{all_placed, empty_below, empty_table, odd, placed, Rows};

use levels::{Levels, MOST, TwoLevels};
use std::array;

// The number of a run, or of the place past the last, ends in at most 32 zeros in binary.
const STEPS: usize = 33;

/// Run m, from 0, of n factors under a list of words, in ascending code; absent past the last.
pub fn run(n: u8, words: &[u64], m: u64) -> Option<u64>
    ensures found { MatchOption result (runs_below n (generated two n words.now) (2 ^ n) ≤ m) (λ x. Run n (generated two n words.now) m x) }
    ensures total { 1 ≤ n → n ≤ 32 → Independent two n words.now → AllWords two n words.now → runs_below n (generated two n words.now) (2 ^ n) ≡ 2 ^ (n - length words.now) }
    ensures same { AllWords two n words.now → (x : ℕ) → is_run n (generated two n words.now) x ≡ is_run n words.now x }
{
    if !(1..=32).contains(&n) {
        return None;
    }
    Table::new(n, words).run(m)
}

/// Writes the runs from a place on, in ascending code, as many as there are and the memory takes; tells how many.
pub fn fill_runs(n: u8, words: &[u64], first: u64, memory: &mut [u64]) -> usize
    ensures count { result ≡ min (length (drop first (runs_upto n (generated two n words.now) (2 ^ n)))) (length memory.old) }
    ensures stored { memory.new ≡ filled (drop first (runs_upto n (generated two n words.now) (2 ^ n))) memory.old }
{
    if !(1..=32).contains(&n) {
        return 0;
    }
    let table = Table::new(n, words);
    let runs = 1u64 << table.free_factors();
    let count = memory.len().min(runs.saturating_sub(first) as usize);
    table.fill(first, &mut memory[..count]);
    count
}

/// Whether an odd number of a word's letters are at level 1 in a run.
pub fn parity(run: u64, word: u64) -> bool
    ensures letters { (n : ℕ) → legal two n run ≡ true → legal two n word ≡ true → result ≡ (letters_at_one n run word % 2 == 1) }
    ensures bits { result ≡ (odd run word == 1) }
{
    (run & word).count_ones() % 2 == 1
}

/// The block number of a run: one binary digit for each of at most 16 words, the lowest first, 1 where the word is odd. The number of words
/// is a premise, as in pattern.rt: a slice of any length is taken.
pub fn block_number(run: u64, words: &[u64]) -> u32
    ensures { (n : ℕ) → legal two n run ≡ true → AllWords two n words.now → length words.now ≤ 16 → result ≡ block_number n run words.now }
{
    let mut number = 0;
    for (i, word) in words.iter().take(MOST).enumerate() {
        if parity(run, *word) {
            number += 1 << i;
        }
    }
    number
}

// Words of so many factors, each at the place of its lowest letter; code 0 where there is none.
// Codes: no such word is 0, and the definitions `placed` and `empty_below` speak of them. Of which list the rows are is a premise of the
// methods: the table keeps no list, and a ghost one would be named in each clause all the same.
#[derive(Clone, Copy)]
struct Table {
    factors: u8,
    rows: [u64; 32],
    ghost few: { factors ≤ 32 },
}

impl Table {
    // The table of a list of words. Illegal words are skipped. The range of n is asked, as the callers have tested it.
    fn new(n: u8, words: &[u64]) -> Table
        requires { n ≤ 32 }
        ensures factors { result.factors ≡ n }
        ensures rows { result.rows ≡ all_placed n empty_table words.now }
    {
        let mut table = Table {
            factors: n,
            rows: [0; 32],
        };
        for word in words {
            if TwoLevels::legal(n, *word) {
                table.place(*word);
            }
        }
        table
    }

    // Puts a word at the place of its lowest letter; where a row stands there, the row is added and what is left goes on.
    fn place(&mut self, word: u64)
        ensures factors { self.new.factors ≡ self.old.factors }
        ensures rows { self.new.rows ≡ placed self.old.factors 0 self.old.rows word }
    {
        let mut left = word;
        for p in 0..self.factors {
            let letter = left >> p & 1;
            if letter == 1 {
                let row = self.rows[usize::from(p)];
                if row == 0 {
                    self.rows[usize::from(p)] = left;
                    return;
                }
                left ^= row;
            }
        }
    }

    // How many factors have no row: their levels can be chosen.
    fn free_factors(&self) -> u8
        ensures count { result ≡ empty_below self.now.rows self.now.factors }
        ensures few { result ≤ 32 }
    {
        self.rows[..usize::from(self.factors)]
            .iter()
            .filter(|row| **row == 0)
            .count() as u8
    }

    // Run m, from 0 and in ascending code; absent past the last. From the highest factor down, a free factor has the next
    // binary digit of m as its level, and a row makes its lowest letter's level the parity of its other letters.
    fn run(&self, m: u64) -> Option<u64>
        ensures { (ws : List ℕ) → 1 ≤ self.now.factors → Rows self.now.factors ws self.now.rows → MatchOption result (runs_below self.now.factors (generated two self.now.factors ws) (2 ^ self.now.factors) ≤ m) (λ x. Run self.now.factors (generated two self.now.factors ws) m x) }
    {
        let mut digits = self.free_factors();
        if m >= 1 << digits {
            return None;
        }
        let mut code = 0;
        // By places: each is also the bit of its letter.
        for p in (0..self.factors).rev() {
            let row = self.rows[usize::from(p)];
            let one = if row == 0 {
                digits -= 1;
                m >> digits & 1 == 1
            } else {
                parity(code, row)
            };
            if one {
                code += 1 << p;
            }
        }
        Some(code)
    }

    // Writes the runs from a place on, in ascending code. There are as many as the memory takes.
    fn fill(&self, first: u64, memory: &mut [u64])
        requires { length memory.old ≤ 2 ^ empty_below self.now.rows self.now.factors - first }
        ensures { (ws : List ℕ) → 1 ≤ self.now.factors → Rows self.now.factors ws self.now.rows → memory.new ≡ take (length memory.old) (drop first (runs_upto self.now.factors (generated two self.now.factors ws) (2 ^ self.now.factors))) }
    {
        let Some(mut run) = self.run(first) else {
            return;
        };
        let steps = self.steps();
        for (i, place) in memory.iter_mut().enumerate() {
            *place = run;
            let next = first + i as u64 + 1;
            run ^= steps[next.trailing_zeros() as usize];
        }
    }

    // What is added to a run to give the next, by the zeros in which the next one's number ends in binary.
    fn steps(&self) -> [u64; STEPS]
        ensures { (ws : List ℕ) → 1 ≤ self.now.factors → Rows self.now.factors ws self.now.rows → (t : ℕ) → t < empty_below self.now.rows self.now.factors → Run self.now.factors (generated two self.now.factors ws) (2 ^ suc t - 1) (slice_index result t) }
    {
        array::from_fn(|zeros| self.step(zeros))
    }

    // What is added to the run before one whose number ends in so many zeros: run 2^(zeros + 1) − 1. Past the last run it is not used.
    fn step(&self, zeros: usize) -> u64
        requires { zeros < 33 }
        ensures { (ws : List ℕ) → 1 ≤ self.now.factors → Rows self.now.factors ws self.now.rows → zeros < empty_below self.now.rows self.now.factors → Run self.now.factors (generated two self.now.factors ws) (2 ^ suc zeros - 1) result }
    {
        self.run((2 << zeros) - 1).unwrap_or(0)
    }
}
