// What a drawing is made of beside its layouts.
use crate::lines::Lines;
use overlays::Operation;

// The operation, and the lines that cut the target's rows and columns into cells.
#[derive(Clone, Copy)]
pub struct Parts {
    pub operation: Operation,
    pub row_lines: Lines,
    pub column_lines: Lines,
}
