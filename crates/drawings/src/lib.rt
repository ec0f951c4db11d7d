// Drawings: which blocks of a source layout a target layout's elements come from, cell by cell, and what
// each board sends for each role.
#![tactic(auto)]

pub mod drawing;

pub use drawing::Drawing;
pub use drawing_parts::Cell;
pub use overlays::Operation;
