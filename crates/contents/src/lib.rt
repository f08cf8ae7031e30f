// What a plan holds, the calls that change it, refusals, and the memory that calls are lent.
#![tactic(auto)]

mod admission;
pub mod content;
pub mod draft;
pub mod memory;
pub mod refusal;
pub mod side;
pub mod words;

pub use content::PlanContent;
pub use draft::Draft;
pub use memory::store;
pub use refusal::Refusal;
pub use side::Side;
