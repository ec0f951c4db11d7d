#![tactic(auto)]

// Tests of the least naming, on tables worked by hand.
#[cfg(test)]
mod tests;
