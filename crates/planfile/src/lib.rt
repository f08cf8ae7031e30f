// The plan file: read into the content of a plan, and written from it.
#![tactic(auto)]

mod buffer;
mod input;
mod reading;
mod writing;

pub use buffer::{Buffer, LONGEST};
pub use input::{ENOUGH, deciding_bytes};
pub use reading::read;
pub use writing::file;

// How many bytes stand before the words of a file.
const HEAD: usize = 9;

// The mark that a file begins with.
const MARK: [u8; 3] = *b"DWF";

// The version of the file format, in two bytes behind the mark.
const VERSION: u16 = 1;
