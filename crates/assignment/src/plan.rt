// A naming with the prices that certify it.

pub const MOST_PRICE: i64 = 1_125_899_906_842_624;

// Role x goes to board naming[x] at the price roles[x], and board y has the price boards[y].
// Entries past the count of boards mean nothing, and are 0 in an answer. The memory is fixed: no heap.
#[derive(Clone, Copy, PartialEq, Eq, Debug)]
pub struct Assignment {
    pub naming: [usize; 16],
    pub roles: [i64; 16],
    pub boards: [i64; 16],
    pub bill: u64,
}
