// Lists of calls on a new plan, and what holds whatever they were.
#![tactic(auto)]

pub mod best;
pub mod call;
pub mod carry_out;
pub mod file;
pub mod memory;
pub mod question;
pub mod reference;
pub mod trial;

pub use best::best_generators_and_equal_answers;
pub use call::Call;
pub use carry_out::{Answer, Outcome};
pub use file::{page_of_input, trial_page};
pub use memory::Memory;
pub use question::{Question, Reply};
pub use trial::Trial;

/// A page has at most so many bytes.
pub const PAGE: usize = page::LONGEST;
