#![tactic(auto)]

// Tests of plans and their sheets, at each limit from both sides.
#[cfg(test)]
mod tests;
