// A plan file is read.
ghost use Rattle.std.specs.Prelude.{◌≡◌, map};
ghost use Rattle.contents.specs.Content.{admitted_all};
ghost use Rattle.contents.specs.Held.{ended, result_of};
ghost use Rattle.planfile.specs.File.{number, read_file};

use crate::{HEAD, MARK, VERSION};
use contents::{Draft, PlanContent, Refusal, Side};
use levels::Levels;
use std::cmp::Ordering;

// What a file says of its plan before the words: the number of factors, and how many words each list has.
#[derive(Clone, Copy)]
struct Head {
    factors: u8,
    defining: u8,
    block: u8,
}

impl Head {
    ghost use Rattle.std.specs.Prelude.{◌≡◌, ◌+◌};
    ghost use Rattle.planfile.specs.File.{past_head, past_size};
    ghost use Rattle.planfile.specs.Head.{head_of};

    // The head of a file: it is there, with the mark, version 1 and the levels.
    fn read<L: Levels>(file: &[u8]) -> Result<Head, Refusal>
        ensures { result ≡ past_head L.Levels.model file.now (Ok (head_of file.now)) }
    {
        let [d, w, f, low, high, levels, factors, defining, block, ..] = *file else {
            return Err(Refusal::Cut);
        };
        if [d, w, f] != MARK {
            return Err(Refusal::Mark);
        }
        if u16::from_le_bytes([low, high]) != VERSION {
            return Err(Refusal::Version);
        }
        if levels != L::LEVELS {
            return Err(Refusal::Levels);
        }
        Ok(Head {
            factors,
            defining,
            block,
        })
    }

    // The words are no more than the limit, and the file has the length that follows from their number.
    fn check_size<L: Levels>(&self, len: usize) -> Result<(), Refusal>
        ensures { result ≡ past_size L.Levels.model (self.now.defining + self.now.block) len (Ok tt) }
    {
        let words = usize::from(self.defining) + usize::from(self.block);
        if words > L::LIMIT {
            return Err(Refusal::Limit);
        }
        match len.cmp(&(HEAD + 8 * words)) {
            Ordering::Less => Err(Refusal::Cut),
            Ordering::Equal => Ok(()),
            Ordering::Greater => Err(Refusal::Surplus),
        }
    }
}

/// The plan that a file holds, or the first check that fails.
pub fn read<L: Levels>(file: &[u8]) -> Result<PlanContent, Refusal>
    ensures { result_of result ≡ read_file L.Levels.model file.now }
{
    let head = Head::read::<L>(file)?;
    let mut draft = Draft::<L>::started(head.factors)?;
    head.check_size::<L>(file.len())?;
    let (words, _) = file[HEAD..].as_chunks::<8>();
    let (defining, block) = words.split_at(usize::from(head.defining));
    admit_words(&mut draft, Side::Defining, defining)?;
    admit_words(&mut draft, Side::Block, block)?;
    Ok(draft.finish())
}

// The words of a file are admitted to one list, until one is refused.
fn admit_words<L: Levels>(
    draft: &mut Draft<L>,
    side: Side,
    words: &[[u8; 8]],
) -> Result<(), Refusal>
    ensures { ended result draft.new ≡ admitted_all L.Levels.model side (map number words.now) draft.old }
{
    for word in words {
        draft.admit(side, u64::from_le_bytes(*word))?;
    }
    Ok(())
}
