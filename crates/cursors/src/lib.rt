// Stepping through the runs of a sender.
#![tactic(auto)]

pub mod cursor;
pub mod step;

pub use cursor::{Cursor, Run, Wanted};
pub use step::{LONGEST, next};
