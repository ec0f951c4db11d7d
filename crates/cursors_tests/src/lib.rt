#![tactic(auto)]

// Tests of stepping through runs, on drawings made by hand.
#[cfg(test)]
mod tests;
