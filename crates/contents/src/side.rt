// The two lists of a plan.
#[derive(Clone, Copy, PartialEq, Eq, Debug)]
pub enum Side {
    Defining,
    Block,
}
