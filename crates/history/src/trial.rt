// A plan, open or settled.
use levels::Levels;
use plan::{OpenPlan, SettledPlan};

/// A plan that calls left, open or settled.
#[derive(Drop)]
pub enum Trial<L: Levels> {
    Open(OpenPlan<L>),
    Settled(SettledPlan<L>),
}
