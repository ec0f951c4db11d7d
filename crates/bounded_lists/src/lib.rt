// Lists of a set length whose entries have a highest value each, as price lists and charges are.
#![tactic(auto)]

pub mod lists;

pub use lists::check_list;
