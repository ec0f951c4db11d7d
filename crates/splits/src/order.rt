// The order of the elements inside a block, and the letter that stands for it.
#[derive(Clone, Copy, PartialEq, Eq, Debug)]
pub enum Order {
    RowMajor,
    ColumnMajor,
}
