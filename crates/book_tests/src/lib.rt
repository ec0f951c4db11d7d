// Examples of planning, with values from hand calculation.
#![tactic(auto)]

#[cfg(test)]
mod tests;
