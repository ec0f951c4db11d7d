#![tactic(auto)]

// Examples of drawings, with values from hand calculation.
#[cfg(test)]
mod tests;
