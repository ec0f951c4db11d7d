// Where a pass over a sender's runs stands, and what it finds.

// The piece of a row of a cell that comes next; rows count from the cell's top, pieces from its left.
#[derive(Clone, Copy, PartialEq, Eq, Debug)]
pub struct Cursor {
    pub cell: usize,
    pub row: usize,
    pub piece: usize,
}

// A run: row and first column in the target, its number of elements, and its cell's role.
#[derive(Clone, Copy, PartialEq, Eq, Debug)]
pub struct Run {
    pub cell: usize,
    pub row: usize,
    pub column: usize,
    pub count: usize,
    pub role: usize,
}

// Which runs are looked for: those of one role, or those of all others.
#[derive(Clone, Copy, PartialEq, Eq, Debug)]
pub enum Wanted {
    Role(usize),
    Others(usize),
}
