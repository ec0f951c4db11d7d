// The causes for which the parts of a drawing are refused.
ghost use Rattle.std.specs.Prelude.{◌≡◌};
ghost use Rattle.drawing_parts.specs.Parts.{Fits, WithinShare};
ghost use Rattle.drawing_parts.specs.Refusals.{exceeds, first_below, fit_cause, share_cause, size_cause};
ghost use Rattle.faults.specs.Checks.{Checks};

use faults::{Bank, Cause};
use layouts::Layout;
use overlays::Operation;

const SHARE: usize = 1048576;

fn check_size(due: usize, number: usize) -> Result<(), Cause>
    ensures { Checks (size_cause due number) result (λ _. number ≡ due) }
{
    if number == due {
        Ok(())
    } else {
        Err(Cause::Size { number })
    }
}

// The source has the rows, columns and boards that the target asks for.
pub(crate) fn check_fit(operation: Operation, target: &Layout, source: &Layout) -> Result<(), Cause>
    ensures { Checks (fit_cause operation target.now source.now) result (λ _. Fits operation target.now source.now) }
{
    let rows = operation.turned(target.rows, target.columns);
    let columns = operation.turned(target.columns, target.rows);
    check_size(rows, source.rows)?;
    check_size(columns, source.columns)?;
    check_size(target.boards, source.boards)
}

// The lowest board whose blocks exceed the share, if any.
fn first_over(layout: &Layout, share: usize) -> Option<usize>
    ensures { result ≡ first_below layout.now.boards (exceeds layout.now share) }
{
    (0..layout.boards).find(|&p| layout.total(p).is_ok_and(|total| share < total))
}

// The share is within its limits, and no board's blocks exceed it.
pub(crate) fn check_share(bank: Bank, layout: &Layout, share: usize) -> Result<(), Cause>
    ensures { Checks (share_cause bank layout.now share) result (λ _. WithinShare layout.now share) }
{
    if share < 1 || SHARE < share {
        return Err(Cause::Share {
            bank,
            owner: layout.boards,
        });
    }
    match first_over(layout, share) {
        Some(owner) => Err(Cause::Share { bank, owner }),
        None => Ok(()),
    }
}
