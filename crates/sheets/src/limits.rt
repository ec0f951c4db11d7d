// The limits of a sheet's numbers.

// The most boards that a cabinet has.
pub const BOARDS: usize = 16;

// The largest price; the least is as much below zero.
pub const PRICE: i64 = 1_125_899_906_842_624;

// The largest bill.
pub const BILL: i64 = 281_474_976_710_656;
