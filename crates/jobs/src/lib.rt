// Jobs: the text that says what is moved, from which layout into which, and what moving costs.
#![tactic(auto)]

mod draft;
pub mod item;
pub mod job;
mod line;
pub mod mistake;
pub mod parsing;
mod values;

pub use job::{Alpha, Job, LayoutText, TariffText};
pub use mistake::{Mistake, Wrong};
pub use parsing::parse;
