// What a layout answers about a block, and about where an element of a block lies.
ghost use Rattle.std.specs.Prelude.{◌≡◌, ◌+◌, ◌&&◌, nat_le, nat_lt};

// A block: its first row and column, its height and width, the board that owns it, and how far from the
// beginning of that board's part of a bank it begins.
#[derive(Clone, Copy, PartialEq, Eq, Debug)]
pub struct Block {
    pub top: usize,
    pub left: usize,
    pub height: usize,
    pub width: usize,
    pub owner: usize,
    pub start: usize,
}

impl Block {
    pub fn covers(self, row: usize, column: usize) -> bool
        ensures value { result ≡ nat_le self.top row && (nat_lt row (self.top + self.height) && (nat_le self.left column && nat_lt column (self.left + self.width))) }
    {
        self.top <= row
            && row - self.top < self.height
            && self.left <= column
            && column - self.left < self.width
    }
}

// Where an element lies: the board that owns it, how far from the beginning of that board's part, and the
// steps from it to the next elements of its block along its row and down its column.
#[derive(Clone, Copy, PartialEq, Eq, Debug)]
pub struct Spot {
    pub owner: usize,
    pub offset: usize,
    pub row_step: usize,
    pub column_step: usize,
}
