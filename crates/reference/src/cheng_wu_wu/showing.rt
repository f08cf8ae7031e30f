// Lists of words are printed: those in print beside ours, and generators.
use crate::cheng_wu_wu::answers::group;
use crate::cheng_wu_wu::letters::{codes, lengths, letters};
use std::alloc::{AllocError, Global};
use std::io;

// Whether two lists have the same words, in whatever order.
fn same_words(alloc: Global, a: &[u64], b: &[u64]) -> Result<bool, AllocError> {
    Ok(ascending(alloc, a)? == ascending(alloc, b)?)
}

// The words of a list in ascending code.
fn ascending(alloc: Global, words: &[u64]) -> Result<Vec<u64>, AllocError> {
    let mut words: Vec<u64> = words.iter().copied().collect(alloc)?;
    words.sort_unstable();
    Ok(words)
}

// Prints a list that stands in print, and ours.
pub(crate) fn show_both(
    rt: &HostRuntime,
    label: &str,
    printed: &str,
    ours: &[u64],
) -> io::Result<()> {
    let same = same_words(rt.alloc(), &codes(rt.alloc(), printed)?, ours)?;
    let told = if same {
        "the same words"
    } else {
        "other words"
    };
    let ours = letters(rt.alloc(), ours)?;
    println!(rt; "{label}, print: {printed}")?;
    println!(rt; "{label}, ours:{ours}; {told}")
}

// Prints generators with their lengths, and whether they generate a group.
pub(crate) fn show_generators(
    rt: &HostRuntime,
    label: &str,
    words: &[u64],
    n: u8,
    wanted: &[u64],
) -> io::Result<()> {
    let same = same_words(rt.alloc(), &group(rt.alloc(), n, words)?, wanted)?;
    let told = if same { "the group" } else { "another group" };
    let lengths = lengths(rt.alloc(), words)?;
    let words = letters(rt.alloc(), words)?;
    println!(rt; "{label}:{words}; lengths{lengths}; they generate {told}")
}
