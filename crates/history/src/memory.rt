// The memory that questions are lent.
ghost use Rattle.std.specs.Prelude.{◌≡◌, IfOk};
ghost use Rattle.history.specs.Lent.{lent};

use std::alloc::AllocError;

/// Memory that is lent to questions, for answers of many numbers.
#[derive(Debug, Drop)]
pub struct Memory {
    /// For a file, a page and clear pairs.
    pub bytes: Vec<u8>,
    /// For a pattern and for scores.
    pub counts: Vec<u32>,
    /// For words and for runs.
    pub words: Vec<u64>,
}

impl Memory {
    ghost use Rattle.history.specs.Lent.{lent};

    /// A copy of what it holds.
    pub fn copied(&self) -> Result<Memory, AllocError>
        ensures { IfOk result (λ copy. lent copy ≡ lent self.now) }
    {
        Ok(Memory {
            bytes: self.bytes.clone()?,
            counts: self.counts.clone()?,
            words: self.words.clone()?,
        })
    }
}
