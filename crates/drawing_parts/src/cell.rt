// What a drawing answers about a cell.

// A cell of the overlay: its first row and column in the target, its height and width, the owner of its
// block of the target, and the owner of its block of the source.
#[derive(Clone, Copy, PartialEq, Eq, Debug)]
pub struct Cell {
    pub top: usize,
    pub left: usize,
    pub height: usize,
    pub width: usize,
    pub role: usize,
    pub sender: usize,
}
