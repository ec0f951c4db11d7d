// The lines, words and numbers of a text.
#![tactic(auto)]

pub mod lines;
pub mod numbers;

pub use lines::{Unread, first_line, words};
pub use numbers::{Number, read_number};
