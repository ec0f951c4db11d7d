// The limits of what tariffs are made of and asked.

// The highest count of boards.
pub const MOST_BOARDS: usize = 16;

// The highest number of bytes of one package.
pub const MOST_BYTES: usize = 16777216;

// The highest latency of a price list.
pub const MOST_LATENCY: u32 = 1000000000;

// The highest price of a byte in a price list.
pub const MOST_RATE: u32 = 10000;

// The highest charge for a byte.
pub const MOST_CHARGE: u32 = 1000;

// The price that none exceeds.
pub const MOST_PRICE: u64 = 1099511627776;
