// A job as its text has it: nothing is asked of the numbers but their bits.

// The number that each element is multiplied by, of the kind of the elements.
#[derive(Clone, Copy, PartialEq, Eq, Debug)]
pub enum Alpha {
    Word(u32),
    Pair(u32, u32),
}

#[derive(Drop)]
pub struct LayoutText {
    pub rows: usize,
    pub columns: usize,
    pub row_splits: Vec<u16>,
    pub column_splits: Vec<u16>,
    pub owners: Vec<u8>,
    pub order: char,
    pub share: usize,
}

#[derive(Drop)]
pub enum TariffText {
    Plain,
    // The latencies and then the prices per byte.
    Table(Vec<u32>),
}

#[derive(Drop)]
pub struct Job {
    pub boards: usize,
    pub operation: char,
    pub alpha: Alpha,
    pub target: LayoutText,
    pub source: LayoutText,
    pub tariff: TariffText,
    // Each lies over the tariff with those before it.
    pub surcharges: Vec<Vec<u32>>,
}
