// What the search works on, and what it finds.

// Prices of the roles, and discounts of the boards: a board's price is its discount below zero.
#[derive(Clone, Copy)]
pub struct Prices {
    pub roles: [u64; 16],
    pub discounts: [u64; 16],
}

// The role that holds each board, if one does, and the board of each role that has one.
#[derive(Clone, Copy)]
pub struct Matching {
    pub owner: [Option<usize>; 16],
    pub naming: [Option<usize>; 16],
}

// The tree of shortest paths over boards: how far each is from the root, the role from which it is
// reached, and the step at which it joined the tree, if it has.
// With one array of a struct here a table of 16 boards takes 13 of 100 longer, measured in this search.
#[derive(Clone, Copy)]
pub(crate) struct Tree {
    pub(crate) distance: [u64; 16],
    pub(crate) way: [usize; 16],
    pub(crate) joined: [Option<usize>; 16],
}

// Every role has a board, at prices that prove that no naming costs less.
#[derive(Clone, Copy)]
pub struct Match {
    pub matching: Matching,
    pub prices: Prices,
}
