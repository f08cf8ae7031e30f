// The bytes of a plan file while it is put together.
use crate::HEAD;
use bounded::Bounded;
use contents::words::MOST;

/// The longest plan file: its head, and 8 bytes for each of 16 words.
pub const LONGEST: usize = HEAD + 8 * MOST;

#[derive(Clone, Copy)]
pub struct Buffer {
    bytes: Bounded<u8, LONGEST>,
}

impl Buffer {
    ghost use Rattle.std.specs.Prelude.{◌≡◌, ◌+◌, ◌*◌, ◌≤◌, [], ◌++◌, length};
    ghost use Rattle.planfile.specs.File.{word_bytes};
    ghost use Rattle.planfile.specs.Written.{written};

    // No bytes.
    pub(crate) fn new() -> Buffer
        ensures { written result ≡ [] }
    {
        Buffer {
            bytes: Bounded::new(0),
        }
    }

    /// The bytes that were written so far.
    pub fn as_slice(&self) -> &[u8]
        ensures { result.now ≡ written self.now }
    {
        self.bytes.as_slice()
    }

    // More bytes at the end, for which there is room.
    pub(crate) fn extend(&mut self, more: &[u8])
        requires { length (written self.old) + length more.now ≤ LONGEST }
        ensures { written self.new ≡ written self.old ++ more.now }
    {
        self.bytes.extend(more);
    }

    // Words at the end, in 8 bytes each.
    pub(crate) fn extend_words(&mut self, words: &[u64])
        requires { length (written self.old) + 8 * length words.now ≤ LONGEST }
        ensures { written self.new ≡ written self.old ++ word_bytes words.now }
    {
        for word in words {
            self.extend(&word.to_le_bytes());
        }
    }
}
