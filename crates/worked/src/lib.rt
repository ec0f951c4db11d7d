// The worked example of a turn, from its layouts to its plan.
#![tactic(auto)]

pub mod laws;

pub use laws::worked_example_stands;
