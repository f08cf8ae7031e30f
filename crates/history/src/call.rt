// The calls on a plan, as data.
use contents::Side;

/// A call, with what it is handed: the bytes of a file `F`, a question `Q`.
///
/// An open plan takes the calls from `Start` to `Settle`, a settled one the other two.
#[derive(Clone, Copy, Drop)]
pub enum Call<F, Q> {
    /// So many factors, and no words.
    Start(u8),
    /// What a plan file holds.
    Read(F),
    /// A word more at the end of a list.
    Admit(Side, u64),
    /// A word of a list is struck, by its place from 1.
    Strike(Side, usize),
    /// The plan changes no more.
    Settle,
    /// The plan is open to changes again.
    Reopen,
    /// A question.
    Ask(Q),
}
