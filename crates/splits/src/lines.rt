// The lines in which a block is stored: its rows in row-major order, its columns in column-major order.
ghost use Rattle.std.specs.Prelude.{◌≡◌};
ghost use Rattle.splits.specs.Places.{line, lines, pitch, spot, step_along_row, step_down_column};

use crate::order::Order;

impl Order {
    // The one of two numbers that the order takes.
    fn pick(self, by_row: usize, by_column: usize) -> usize
        ensures { result ≡ lines self by_row by_column }
    {
        match self {
            Order::RowMajor => by_row,
            Order::ColumnMajor => by_column,
        }
    }

    // How many lines a block has.
    pub fn lines(self, height: usize, width: usize) -> usize
        ensures value { result ≡ lines self height width }
    {
        self.pick(height, width)
    }

    // How many places a line of a block takes.
    pub fn pitch(self, height: usize, width: usize) -> usize
        ensures value { result ≡ pitch self height width }
    {
        self.pick(width, height)
    }

    // The line of the element in row `i` and column `j` of a block.
    pub fn line(self, i: usize, j: usize) -> usize
        ensures value { result ≡ line self i j }
    {
        self.pick(i, j)
    }

    // The spot of that element on its line.
    pub fn spot(self, i: usize, j: usize) -> usize
        ensures value { result ≡ spot self i j }
    {
        self.pick(j, i)
    }

    // From an element to the next along its row, in a block of this pitch.
    pub fn step_along_row(self, pitch: usize) -> usize
        ensures value { result ≡ step_along_row self pitch }
    {
        self.pick(1, pitch)
    }

    // From an element to the next down its column, in a block of this pitch.
    pub fn step_down_column(self, pitch: usize) -> usize
        ensures value { result ≡ step_down_column self pitch }
    {
        self.pick(pitch, 1)
    }
}
