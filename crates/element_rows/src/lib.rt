// Rows of elements, written into words and read back.
#![tactic(auto)]

pub mod rows;

pub use rows::{element_at, pack, unpack};
