// The search for a least naming, along shortest paths.
#![tactic(auto)]

mod paths;
mod search;
pub mod solving;
pub mod tree;

pub use solving::search_naming;
pub use tree::{Match, Matching, Prices};
