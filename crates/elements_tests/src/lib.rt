#![tactic(auto)]

// Tests of the elements.
#[cfg(test)]
mod tests;
