// What becomes of a job: its plan or its refusal, and the words for both.
#![tactic(auto)]

pub mod planned;
pub mod planning;
pub mod refusal;
pub mod report;
mod stop;

pub use planned::Planned;
pub use planning::{adopted, settled};
pub use refusal::Refusal;
pub use report::{Report, Sheet, Summary};
