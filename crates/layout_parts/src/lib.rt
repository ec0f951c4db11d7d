// What a layout is made of: the rules of its parts and the tables of parts that keep them; and what it answers
// about a block and about the place of an element.
#![tactic(auto)]

pub mod block;
mod causes;
mod fill;
mod given;
pub mod make;
pub mod parts;

pub use block::{Block, Spot};
pub use parts::Parts;
