// What a plan says of one number x, as a role and as a board.

#[derive(Clone, Copy, PartialEq, Eq, Debug, Default)]
pub struct Line {
    // The board that takes role x.
    pub board: usize,
    // The price of role x.
    pub u: i64,
    // The price of board x.
    pub v: i64,
}
