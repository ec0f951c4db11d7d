// The causes for which a call is refused, each with the values that it returns.

// The side of a matrix that a split list cuts.
#[derive(Clone, Copy, PartialEq, Eq, Debug)]
pub enum Side {
    Rows = 0,
    Columns = 1,
}

// The memory that a share belongs to.
#[derive(Clone, Copy, PartialEq, Eq, Debug)]
pub enum Bank {
    Source = 0,
    Target = 1,
}

// The states of a book.
#[derive(Clone, Copy, PartialEq, Eq, Debug)]
pub enum State {
    Empty = 0,
    Drawn = 1,
    Settled = 2,
    Running = 3,
}

// Where several causes apply to one call, the one that stands first here is returned.
#[derive(Clone, Copy, PartialEq, Eq, Debug)]
pub enum Cause {
    // A letter that names nothing.
    Letter { code: u32 },
    // A count of boards outside its limits, or a board that is not below the count.
    Board { number: usize },
    // Rows or columns outside their limits, or a source that does not fit the target.
    Size { number: usize },
    // A list of splits that is wrong from the index on.
    Splits { side: Side, index: usize },
    // A table of owners that is wrong from the index on.
    Owners { index: usize },
    // A share outside its limits, with the count of boards; or one that the owner's blocks exceed.
    Share { bank: Bank, owner: usize },
    // A call that the book's state forbids.
    State { state: State },
    // A tariff, a link or a plan for another count of boards.
    Count { number: usize },
    // A plan that cannot be adopted: the first role that fails, or the count of boards for the bill.
    Plan { role: usize },
    // A lease of another pass.
    Pass,
    // A bank or frame of a wrong length, or a buffer or list that is too short.
    Length { due: usize },
    // No run to keep or post, or nothing that waits.
    Nothing { board: usize },
    // A board that is not open.
    Closed { board: usize },
    // A frame that is not due: its first wrong header word, or 4 for its length.
    Frame { word: usize },
    // A finish before every element is kept or taken.
    Early { missing: usize },
    // A field of a sheet that is not legal; lines and columns count from 1.
    Field { line: usize, column: usize },
    // Bytes, a cell, a surcharge or a price list beyond limits; 0 for a single number.
    Beyond { index: usize },
}
