// Settling a drawing: what its packages cost by a tariff, the least naming, and the judging of proposed plans.
#![tactic(auto)]

mod bridge;
pub mod calls;
pub mod costing;
mod packages;
mod pricing;
mod recording;
pub mod settlement;

pub use settlement::Settlement;
