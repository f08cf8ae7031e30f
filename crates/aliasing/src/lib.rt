// What is read off the words of a plan: pattern, alias sets, clear pairs, runs and blocks.
// n and the words stay two parameters here: the struct that holds both is the plan, in the crate above.
#![tactic(auto)]

pub mod clear;
pub mod members;
pub mod pattern;
pub mod runs;
