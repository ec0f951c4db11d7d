// The making of a drawing.
ghost use Rattle.drawings.specs.Making.{Made};
ghost use Rattle.drawing_parts.specs.Refusals.{make_refusal};
ghost use Rattle.faults.specs.Answers.{Answers};

use crate::drawing::Drawing;
use crate::drawing::cells::Cells;
use drawing_parts::Parts;
use faults::{Call, Fault, Layer};
use layouts::Layout;

impl Drawing {
    // The drawing that brings the source into the target's layout by the operation that the letter names: N
    // for the identity, T for the transpose, C for the conjugate transpose. The shares are the numbers of
    // elements that each board has for the source and for the target.
    pub fn new(
        letter: char,
        target: &Layout,
        source: &Layout,
        source_share: usize,
        target_share: usize,
    ) -> Result<Drawing, Fault>
        ensures cases { Answers Layer.Drawings Call.Make (make_refusal letter target.now source.now source_share target_share) result (λ d. Made letter target.now source.now source_share target_share d) (Unit {0}) }
    {
        let Parts {
            operation,
            row_lines,
            column_lines,
        } = Parts::new(letter, target, source, source_share, target_share)?;
        let cells = Cells {
            operation,
            target,
            source,
            rows: &row_lines,
            columns: &column_lines,
        };
        let packages = cells.tally();
        Ok(Drawing {
            operation,
            target: *target,
            source: *source,
            source_share,
            target_share,
            row_lines,
            column_lines,
            packages,
        })
    }
}
