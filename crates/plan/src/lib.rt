// A trial plan: open to changes, or settled and ready to answer.
#![tactic(auto)]

pub mod choices;
pub mod open;
pub mod questions;
pub mod settled;

pub use contents::{Refusal, Side, content, memory, refusal, side, words};
pub use open::OpenPlan;
pub use settled::SettledPlan;
