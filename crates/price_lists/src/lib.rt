// The tariff of a price list.
#![tactic(auto)]

pub mod table;

pub use table::Table;
