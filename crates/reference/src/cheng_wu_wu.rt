// The worked examples of Cheng, Wu and Wu (2003): what stands in print, and what the library gives.
use std::io;

mod alias_sets;
mod answers;
mod first;
mod letters;
mod second;
mod showing;
mod third;

pub(crate) fn examples(rt: &HostRuntime) -> io::Result<()> {
    first::example(rt)?;
    second::example(rt)?;
    third::example(rt)
}
