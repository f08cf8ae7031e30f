// Preferences between words: which of two is better, given the words of a base list.
// n, the base list and the two words are parameters of the question of the interface, `compare`; a search, which asks of one n and one
// base list again and again, holds these two in a `Span` and asks `prefer`.
#![tactic(auto)]

pub mod aberration;
pub mod candidate;
pub mod cheapest;
pub mod preference;
pub mod ranked;
pub mod reversed;
pub mod shortest;
pub mod sum;

pub use aberration::LeastAberration;
pub use candidate::Candidate;
pub use cheapest::Cheapest;
pub use preference::{Preference, Scored, Verdict, fair};
pub use ranked::FirstThenSecond;
pub use reversed::{Longest, Reversed};
pub use shortest::Shortest;
pub use sum::Sum;
