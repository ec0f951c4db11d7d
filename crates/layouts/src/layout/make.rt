// The making of a layout.
ghost use Rattle.faults.specs.Answers.{Answers};
ghost use Rattle.layouts.specs.Making.{Made};
ghost use Rattle.layout_parts.specs.Refusals.{make_refusal};

use crate::layout::Layout;
use faults::{Call, Fault, Layer};
use layout_parts::Parts;

impl Layout {
    // The layout of so many rows and columns over `boards` boards, with these splits and the owner of each
    // block row by row, in the order that the letter names: R for row-major, C for column-major.
    // Each caller names all seven for this one call: a struct of them would be no plainer.
    pub fn new(
        letter: char,
        boards: usize,
        rows: usize,
        columns: usize,
        row_splits: &[u16],
        column_splits: &[u16],
        owners: &[u8],
    ) -> Result<Layout, Fault>
        ensures cases { Answers Layer.Layouts Call.Make (make_refusal letter boards rows columns row_splits.now column_splits.now owners.now) result (λ l. Made letter boards rows columns row_splits.now column_splits.now owners.now l) (Unit {0}) }
    {
        let Parts {
            order,
            row_blocks,
            column_blocks,
            tables,
        } = Parts::new(
            letter,
            boards,
            rows,
            columns,
            row_splits,
            column_splits,
            owners,
        )?;
        Ok(Layout {
            boards,
            rows,
            columns,
            order,
            row_blocks,
            column_blocks,
            tables,
        })
    }
}
