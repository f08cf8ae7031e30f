// What least aberration says of words of eight factors.
use levels::TwoLevels;
use preferences::{LeastAberration, Preference, Verdict};
use std::io;

// Prints which of two words is better over the base list 39, 75, 149.
fn compared(rt: &HostRuntime, a: u64, b: u64) -> io::Result<()> {
    match Preference::<TwoLevels>::compare(&LeastAberration, 8, &[39, 75, 149], a, b) {
        Verdict::First => println!(rt; "{a} is better than {b}"),
        Verdict::Second => println!(rt; "{b} is better than {a}"),
        Verdict::Equal => println!(rt; "{a} and {b} are equal"),
    }
}

// Of two words the second, and neither of an illegal code and a word.
pub(crate) fn verdicts(rt: &HostRuntime) -> io::Result<()> {
    compared(rt, 6, 9)?;
    compared(rt, 256, 9)
}
