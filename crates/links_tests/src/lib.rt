// Code over any link, and tests of the links against a plain model.
#![tactic(auto)]

pub mod carry;
#[cfg(test)]
mod model;
#[cfg(test)]
mod tests;
