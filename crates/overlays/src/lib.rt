// How the blocks of two layouts lie over each other: the operation between them, the cells of their
// overlay, the packages that the cells make up, and the laws that drawings rest on.
#![tactic(auto)]

pub mod laws;
pub mod operation;
pub mod turns;

pub use operation::Operation;
