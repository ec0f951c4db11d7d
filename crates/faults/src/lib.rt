// What every layer of the controller shares: the closed list of causes for which a call is refused,
// the fault that carries one, and the shape that the promises of refusing calls have.
#![tactic(auto)]

pub mod cause;
pub mod display;
pub mod fault;
pub mod numbers;

pub use cause::{Bank, Cause, Side, State};
pub use fault::{Call, Fault, Layer};
