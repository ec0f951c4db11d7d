// The runs of a sender: the pieces in which it sends its cells.
#![tactic(auto)]

pub mod laws;
