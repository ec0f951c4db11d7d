// Where a list is wrong: the rules of lists, the search and the law that the layers with lists of their own rest on.
#![tactic(auto)]

pub mod lists;

pub use lists::{ListRule, first_wrong, wrong_lists_stand};
