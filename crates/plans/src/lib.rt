// Plans, which name a board for each role and price both, and the sheets that they are written as.
#![tactic(auto)]

mod columns;
pub mod echoing;
mod field;
pub mod laws;
mod numeral;
pub mod plan;
pub mod plan_calls;
pub mod reading;
pub mod writing;

pub use echoing::{SHEET, echo};
pub use plan::Plan;
pub use sheets::Line;
