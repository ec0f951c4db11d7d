// Least namings: which board takes which role so that the bill is least, with prices that prove it.
#![tactic(auto)]

pub mod judging;
pub mod plan;
pub mod solving;

pub use assignment_costs::Costs;
pub use judging::{bill, judge};
pub use plan::Assignment;
pub use solving::solve;
