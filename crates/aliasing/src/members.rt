// The members of an alias set, in ascending code.
ghost use Rattle.std.specs.Prelude.{◌≡◌, ℕ, ◌*◌, ◌+◌, ◌++◌, ◌<◌, ◌≤◌, false, length, map, min, take, MatchOption, nat_lt, slice_index};
ghost use Rattle.std.specs.List.{flat_map};
ghost use Rattle.levels.specs.Words.{code_sum, legal, word_multiple, word_sum};
ghost use Rattle.levels.specs.Space.{AllWords, Word};
ghost use Rattle.levels.specs.Generated.{Generates};
ghost use Rattle.levels.specs.Basis.{Echelon};
ghost use Rattle.levels.specs.Alias.{alias_set, how_many};
ghost use Rattle.aliasing.specs.Members.{Member};
ghost use Rattle.aliasing.specs.Filled.{filled};
ghost use Rattle.aliasing.specs.Blocks.{sums_below, block, above, Next, Entry};

use levels::{Basis, Levels};

/// Member m, from 0 and in ascending code, of the alias set of a word; nothing past the last, and for an illegal word.
pub fn alias_member<L: Levels>(n: u8, words: &[u64], word: u64, m: u64) -> Option<u64>
    ensures member { Word L.Levels.model n word → MatchOption result (length (alias_set L.Levels.model n words.now word) ≤ m) (λ x. Member (alias_set L.Levels.model n words.now word) m x) }
    ensures entry { Word L.Levels.model n word → Entry (alias_set L.Levels.model n words.now word) m result }
    ensures illegal { legal L.Levels.model n word ≡ false → result ≡ None }
{
    if !L::legal(n, word) {
        return None;
    }
    let mut basis = Basis::new();
    basis.admit_all::<L>(n, words);
    member::<L>(n, basis.rows(), 0, word, m)
}

// Member m of the alias set over the rows above a floor. The smallest of these makes s members of each member over the larger ones.
// Echelon rows and a legal word are premises, as in `Basis::reduce`.
fn member<L: Levels>(n: u8, rows: &[u64], floor: u64, word: u64, m: u64) -> Option<u64>
    ensures { Echelon L.Levels.model n rows.now → Word L.Levels.model n word → Entry (alias_set L.Levels.model n (above floor rows.now) word) m result }
{
    let Some(row) = next(rows, floor) else {
        return (m == 0).then_some(word);
    };
    let levels = u64::from(L::LEVELS);
    let start = member::<L>(n, rows, row, word, m / levels)?;
    pick::<L>(n, row, start, m % levels)
}

// The smallest row above a floor.
fn next(rows: &[u64], floor: u64) -> Option<u64>
    ensures { Next rows.now floor result }
{
    rows.iter().copied().filter(|row| floor < *row).min()
}

// The sum at a place, from 0 and in ascending code, of a word and the multiples of a row.
fn pick<L: Levels>(n: u8, row: u64, word: u64, place: u64) -> Option<u64>
    ensures { Word L.Levels.model n row → 0 < row → Word L.Levels.model n word → place < L.Levels.model.s → result ≡ Some (slice_index (block L.Levels.model n row word) place) }
{
    for level in 0..L::LEVELS {
        let sum = sum_with::<L>(n, row, word, level);
        if smaller::<L>(n, row, word, sum) == place {
            return Some(sum);
        }
    }
    None
}

// How many sums of a word and the multiples of a row are below a code.
fn smaller<L: Levels>(n: u8, row: u64, word: u64, code: u64) -> u64
    ensures { result ≡ how_many (λ y. nat_lt y code) (sums_below L.Levels.model n L.Levels.model.s row word) }
{
    (0..L::LEVELS)
        .filter(|level| sum_with::<L>(n, row, word, *level) < code)
        .count() as u64
}

// The sum of a word and the multiple of a row by a level.
fn sum_with<L: Levels>(n: u8, row: u64, word: u64, level: u8) -> u64
    ensures { result ≡ word_sum L.Levels.model n word (word_multiple L.Levels.model n level row) }
{
    L::sum(n, word, L::product(n, level, row))
}

/// Writes the alias set of a word, in ascending code, as much as there is room for; tells how many words are written.
/// Nothing for an illegal word.
pub fn fill_aliases<L: Levels>(n: u8, words: &[u64], word: u64, memory: &mut [u64]) -> usize
    ensures count { Word L.Levels.model n word → result ≡ min (length (alias_set L.Levels.model n words.now word)) (length memory.old) }
    ensures stored { Word L.Levels.model n word → memory.new ≡ filled (alias_set L.Levels.model n words.now word) memory.old }
    ensures illegal { legal L.Levels.model n word ≡ false → (result ≡ 0) × (memory.new ≡ memory.old) }
{
    if !L::legal(n, word) {
        return 0;
    }
    let mut basis = Basis::new();
    basis.admit_all::<L>(n, words);
    let least = basis.reduce::<L>(n, word);
    fill_over::<L>(n, basis.rows(), least, memory)
}

// Writes the alias set of a word over rows, row by row from the smallest. No row makes the word smaller. It asks for echelon rows and a
// legal word, as `Basis::reduce` does. Memory is lent, so that here and below its front is told by a length beside it.
fn fill_over<L: Levels>(n: u8, rows: &[u64], least: u64, memory: &mut [u64]) -> usize
    requires echelon { Echelon L.Levels.model n rows.now }
    requires word { Word L.Levels.model n least }
    requires least { (g : ℕ) → Generates L.Levels.model n rows.now g → least ≤ word_sum L.Levels.model n least g }
    ensures count { result ≡ min (length (alias_set L.Levels.model n rows.now least)) (length memory.old) }
    ensures stored { memory.new ≡ filled (alias_set L.Levels.model n rows.now least) memory.old }
{
    if memory.is_empty() {
        return 0;
    }
    memory[0] = least;
    let mut len = 1;
    let mut smaller = Basis::new();
    let mut floor = 0;
    while let Some(row) = next(rows, floor) {
        let left = smaller.reduce::<L>(n, row);
        len = repeat::<L>(n, left, len, memory);
        smaller.admit::<L>(n, row);
        floor = row;
    }
    len
}

// Puts the front of memory again behind it, plus each further multiple of a row in ascending code, as much as there is room for.
fn repeat<L: Levels>(n: u8, row: u64, front: usize, memory: &mut [u64]) -> usize
    requires row { Word L.Levels.model n row }
    requires nonzero { 0 < row }
    requires front { front ≤ length memory.old }
    requires legal { AllWords L.Levels.model n (take front memory.old) }
    ensures count { result ≡ min (front * L.Levels.model.s) (length memory.old) }
    ensures stored { memory.new ≡ filled (flat_map (λ m. map (word_sum L.Levels.model n m) (take front memory.old)) (block L.Levels.model n row 0)) memory.old }
{
    let mut len = front;
    for place in 1..L::LEVELS {
        if let Some(multiple) = pick::<L>(n, row, 0, u64::from(place)) {
            len = append::<L>(multiple, front, len, memory);
        }
    }
    len
}

// Puts the first codes of memory, each plus one code, behind those that are there, as many as there is room for.
fn append<L: Levels>(code: u64, front: usize, len: usize, memory: &mut [u64]) -> usize
    requires front { front ≤ len }
    requires len { len ≤ length memory.old }
    ensures count { result ≡ min (len + front) (length memory.old) }
    ensures stored { memory.new ≡ filled (take len memory.old ++ map (code_sum L.Levels.model code) (take front memory.old)) memory.old }
{
    let more = front.min(memory.len() - len);
    memory.copy_within(..more, len);
    for word in &mut memory[len..len + more] {
        *word = L::add(code, *word);
    }
    len + more
}
