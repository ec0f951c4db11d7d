// What a drawing is made of: the rules of its parts and the lines of parts that keep them; and what it answers
// about a cell.
#![tactic(auto)]

mod causes;
pub mod cell;
pub mod lines;
pub mod make;
mod merge;
pub mod parts;

pub use cell::Cell;
pub use lines::{Line, Lines};
pub use parts::Parts;
