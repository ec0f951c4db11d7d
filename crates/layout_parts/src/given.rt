// What a layout is to be made of, as it is given and as it is checked.
ghost use Rattle.std.specs.Prelude.{◌≡◌, Some};
ghost use Rattle.faults.specs.Checks.{Checks};
ghost use Rattle.layout_parts.specs.Buildable.{Buildable};
ghost use Rattle.layout_parts.specs.Refusals.{frame_refusal, make_refusal, order_of};

use crate::causes::{check_boards, check_owners, check_size, check_splits};
use faults::{Cause, Side};
use splits::Order;

#[derive(Clone, Copy)]
pub(crate) struct Given<'a> {
    pub letter: char,
    pub boards: usize,
    pub rows: usize,
    pub columns: usize,
    pub row_splits: &'a [u16],
    pub column_splits: &'a [u16],
    pub owners: &'a [u8],
}

// What is given without a cause of refusal, and the order that its letter names.
#[derive(Clone, Copy)]
pub(crate) struct Checked<'a> {
    pub given: Given<'a>,
    pub order: Order,
    ghost named: { order_of given.letter ≡ Some order },
    ghost buildable: { Buildable given.boards given.rows given.columns given.row_splits.now given.column_splits.now given.owners.now },
}

impl<'a> Given<'a> {
    // The order, where everything above the owners is right: they need legal splits to be counted.
    fn check_frame(self) -> Result<Order, Cause>
        ensures { Checks (frame_refusal self.entry.letter self.entry.boards self.entry.rows self.entry.columns self.entry.row_splits.now self.entry.column_splits.now) result (λ o. order_of self.entry.letter ≡ Some o) }
    {
        let order = Order::try_from(self.letter)?;
        check_boards(self.boards)?;
        check_size(self.rows)?;
        check_size(self.columns)?;
        check_splits(Side::Rows, self.rows, self.row_splits)?;
        check_splits(Side::Columns, self.columns, self.column_splits)?;
        Ok(order)
    }

    pub(crate) fn check(self) -> Result<Checked<'a>, Cause>
        ensures { Checks (make_refusal self.entry.letter self.entry.boards self.entry.rows self.entry.columns self.entry.row_splits.now self.entry.column_splits.now self.entry.owners.now) result (λ v. v.given ≡ self.entry) }
    {
        let order = self.check_frame()?;
        let blocks = (self.row_splits.len() - 1) * (self.column_splits.len() - 1);
        check_owners(blocks, self.boards, self.owners)?;
        Ok(Checked { given: self, order })
    }
}
