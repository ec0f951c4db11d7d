// Tables of costs for the naming of roles by boards.
#![tactic(auto)]

pub mod costs;
pub mod tables;

pub use costs::Costs;
