// The laws of namings and prices that the search for a least naming rests on.
#![tactic(auto)]

pub mod laws;
pub mod worked;
