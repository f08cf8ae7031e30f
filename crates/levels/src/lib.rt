// The arithmetic of levels, words, and what a list of words generates.
// n and the words stay two parameters here. `Span` holds both, for questions that are asked again and again; else the struct that
// holds both is the plan, in a crate above.
#![tactic(auto)]

pub mod arithmetic;
pub mod basis;
pub mod opposites;
pub mod span;
pub mod theorems;
pub mod three;
pub mod two;

pub use arithmetic::{Levels, MOST};
pub use basis::Basis;
pub use span::Span;
pub use three::ThreeLevels;
pub use two::TwoLevels;
