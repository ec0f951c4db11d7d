// A link that keeps the waiting frames of all boards in one list of words.
#![tactic(auto)]

pub mod bus;
mod entries;

pub use bus::{Bus, Refusal};
