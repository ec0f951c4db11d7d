// The book of a turn: what is drawn, and the plan that is settled for it.
#![tactic(auto)]

pub mod asking;
pub mod book;
pub mod fault;
pub mod laws;
pub mod stage;

pub use book::Book;
pub use fault::BookFault;
pub use stage::{Stage, Turn};
