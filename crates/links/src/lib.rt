// What carries frames between the boards: the trait of every link, and the checks that links share.
#![tactic(auto)]

pub mod checks;
pub mod link;

pub use link::Link;
