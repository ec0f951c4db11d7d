// A link with one inbox for each board.
#![tactic(auto)]

pub mod crossbar;
mod inbox;

pub use crossbar::Crossbar;
