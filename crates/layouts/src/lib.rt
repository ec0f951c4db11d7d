// Layouts: how a matrix is spread over the boards, and where each element lies in a bank.
#![tactic(auto)]

pub mod layout;

pub use layout::Layout;
pub use layout_parts::{Block, Spot};
