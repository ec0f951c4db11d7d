// The parts of a layout: whether they are refused, and their tables where they are not.
ghost use Rattle.faults.specs.Answers.{Answers};
ghost use Rattle.layout_parts.specs.Making.{AreParts};
ghost use Rattle.layout_parts.specs.Refusals.{make_refusal};

use crate::given::Given;
use crate::parts::Parts;
use faults::{Call, Fault, Layer};

impl Parts {
    // The parts of a layout of so many rows and columns over `boards` boards, with these splits and the owner
    // of each block row by row, in the order that the letter names: R for row-major, C for column-major.
    // Each caller names all seven for this one call: a struct of them would be no plainer.
    pub fn new(
        letter: char,
        boards: usize,
        rows: usize,
        columns: usize,
        row_splits: &[u16],
        column_splits: &[u16],
        owners: &[u8],
    ) -> Result<Parts, Fault>
        ensures cases { Answers Layer.Layouts Call.Make (make_refusal letter boards rows columns row_splits.now column_splits.now owners.now) result (λ p. AreParts letter boards rows columns row_splits.now column_splits.now owners.now p) (Unit {0}) }
    {
        let given = Given {
            letter,
            boards,
            rows,
            columns,
            row_splits,
            column_splits,
            owners,
        };
        let checked = given
            .check()
            .map_err(|cause| Fault::new(Layer::Layouts, Call::Make, cause))?;
        Ok(checked.fill())
    }
}
