// The parts of a drawing: whether they are refused, and the lines of the cells where they are not.
ghost use Rattle.std.specs.Prelude.{◌≡◌, Some};
ghost use Rattle.drawing_parts.specs.Making.{AreParts};
ghost use Rattle.drawing_parts.specs.Parts.{Fits, Ruled, WithinShare, source_columns, source_rows};
ghost use Rattle.drawing_parts.specs.Refusals.{make_refusal, operation_of};
ghost use Rattle.faults.specs.Answers.{Answers};
ghost use Rattle.faults.specs.Checks.{Checks};
ghost use Rattle.layouts.specs.Layouts.{column_cuts, row_cuts};

use crate::causes::{check_fit, check_share};
use crate::merge::merge;
use crate::parts::Parts;
use faults::{Bank, Call, Cause, Fault, Layer};
use layouts::Layout;
use overlays::Operation;

// The operation that the letter names, where a drawing of these parts is not refused.
fn check_parts(
    letter: char,
    target: &Layout,
    source: &Layout,
    source_share: usize,
    target_share: usize,
) -> Result<Operation, Cause>
    ensures { Checks (make_refusal letter target.now source.now source_share target_share) result (λ op. (operation_of letter ≡ Some op) × Fits op target.now source.now × WithinShare source.now source_share × WithinShare target.now target_share) }
{
    let operation = Operation::try_from(letter)?;
    check_fit(operation, target, source)?;
    check_share(Bank::Source, source, source_share)?;
    check_share(Bank::Target, target, target_share)?;
    Ok(operation)
}

// The parts that the operation makes of a source that fits the target.
fn parts_of(operation: Operation, target: &Layout, source: &Layout) -> Parts
    requires { Fits operation target.now source.now }
    ensures operation { result.operation ≡ operation }
    ensures rows { Ruled target.now.rows (row_cuts target.now) (source_rows operation source.now) result.row_lines }
    ensures columns { Ruled target.now.columns (column_cuts target.now) (source_columns operation source.now) result.column_lines }
{
    let (rows, columns) = (source.row_splits(), source.column_splits());
    Parts {
        operation,
        row_lines: merge(
            target.rows as u16,
            target.row_splits(),
            operation.turned(rows, columns),
        ),
        column_lines: merge(
            target.columns as u16,
            target.column_splits(),
            operation.turned(columns, rows),
        ),
    }
}

impl Parts {
    // The parts of the drawing that brings the source into the target's layout by the operation that the
    // letter names: N for the identity, T for the transpose, C for the conjugate transpose. The shares are
    // the numbers of elements that each board has for the source and for the target.
    pub fn new(
        letter: char,
        target: &Layout,
        source: &Layout,
        source_share: usize,
        target_share: usize,
    ) -> Result<Parts, Fault>
        ensures cases { Answers Layer.Drawings Call.Make (make_refusal letter target.now source.now source_share target_share) result (λ p. AreParts letter target.now source.now source_share target_share p) (Unit {0}) }
    {
        let operation = check_parts(letter, target, source, source_share, target_share).map_err(
            |cause| Fault::new(Layer::Drawings, Call::Make, cause),
        )?;
        Ok(parts_of(operation, target, source))
    }
}
