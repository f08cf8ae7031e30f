// The file of a plan is put together.
ghost use Rattle.std.specs.Prelude.{◌≡◌, [], ◌∷◌, ◌++◌, length};
ghost use Rattle.planfile.specs.File.{bytes as bytes_of, file_of, mark};
ghost use Rattle.contents.specs.Held.{content_of};
ghost use Rattle.planfile.specs.Written.{written};

use crate::buffer::Buffer;
use crate::{HEAD, MARK, VERSION};
use contents::{PlanContent, Side};
use levels::Levels;

// What stands before the words: the mark, version 1, levels, factors and the two counts.
fn head<L: Levels>(held: &PlanContent) -> [u8; HEAD]
    ensures { result ≡ mark ++ bytes_of 2 1 ++ (L.Levels.model.s ∷ (content_of held.now).factors ∷ length (content_of held.now).defining ∷ length (content_of held.now).block ∷ []) }
{
    let defining = held.list(Side::Defining).len() as u8;
    let block = held.list(Side::Block).len() as u8;
    let [d, w, f] = MARK;
    let [low, high] = VERSION.to_le_bytes();
    [
        d,
        w,
        f,
        low,
        high,
        L::LEVELS,
        held.factors(),
        defining,
        block,
    ]
}

/// The file of a plan.
pub fn file<L: Levels>(held: &PlanContent) -> Buffer
    ensures { written result ≡ file_of L.Levels.model (content_of held.now) }
{
    let mut file = Buffer::new();
    file.extend(&head::<L>(held));
    file.extend_words(held.list(Side::Defining).as_slice());
    file.extend_words(held.list(Side::Block).as_slice());
    file
}
