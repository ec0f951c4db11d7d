// What sheets are made of: their lines and the limits of their numbers, with the text of each field.
#![tactic(auto)]

pub mod limits;
pub mod line;

pub use line::Line;
