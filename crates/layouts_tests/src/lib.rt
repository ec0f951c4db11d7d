#![tactic(auto)]

// Examples of layouts, with values from hand calculation.
#[cfg(test)]
mod tests;
