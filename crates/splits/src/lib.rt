// How lists of splits cut a matrix into blocks, and where the elements of the blocks lie: the rules,
// the searches and the laws that layouts rest on.
#![tactic(auto)]

pub mod cuts;
pub mod laws;
pub mod letters;
pub mod lines;
pub mod order;
pub mod owners;

pub use order::Order;
