// Tests of the tariffs, and a tariff that another crate writes.
#![tactic(auto)]

pub mod distance;

pub use distance::Distance;

#[cfg(test)]
mod tests;
