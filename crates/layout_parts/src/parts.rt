// What a layout's tables hold.
use splits::Order;

// The greatest counts that the rules allow: of boards, of the splits of a side, and of blocks.
pub(crate) const BOARDS: usize = 16;

pub(crate) const SPLITS: usize = 33;

pub(crate) const BLOCKS: usize = 1024;

// The tables have the greatest lengths that the rules allow; past the used parts stand zeros.
// `starts` has for each block how far from the beginning of its owner's part it begins, and `totals` for
// each board how many elements its blocks have in all. The memory is fixed: no heap.
#[derive(Clone, Copy)]
pub struct Tables {
    pub row_splits: [u16; SPLITS],
    pub column_splits: [u16; SPLITS],
    pub owners: [u8; BLOCKS],
    pub starts: [u32; BLOCKS],
    pub totals: [u32; BOARDS],
}

// The tables, and how much of them is used.
#[derive(Clone, Copy)]
pub struct Parts {
    pub order: Order,
    pub row_blocks: usize,
    pub column_blocks: usize,
    pub tables: Tables,
}
