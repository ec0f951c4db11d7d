// The checks of what a layout is to be made of.
ghost use Rattle.std.specs.Prelude.{◌≡◌, ◌&&◌, None, Some, cond, nat_le};
ghost use Rattle.faults.specs.Checks.{Checks};
ghost use Rattle.layout_parts.specs.Refusals.{boards_cause, owners_cause, size_cause, splits_cause};

use crate::parts::BOARDS;
use faults::{Cause, Side};
use splits::cuts::first_wrong_split;
use splits::owners::first_wrong_owner;

// The most rows or columns.
const SIZE: usize = 1024;

// Refuses a count that is not from 1 to the most.
fn check_count(count: usize, most: usize, cause: Cause) -> Result<(), Cause>
    ensures { Checks (cond (nat_le 1 count && nat_le count most) None (Some cause)) result (λ _. Unit {0}) }
{
    if (1..=most).contains(&count) {
        Ok(())
    } else {
        Err(cause)
    }
}

pub(crate) fn check_boards(boards: usize) -> Result<(), Cause>
    ensures { Checks (boards_cause boards) result (λ _. Unit {0}) }
{
    check_count(boards, BOARDS, Cause::Board { number: boards })
}

pub(crate) fn check_size(size: usize) -> Result<(), Cause>
    ensures { Checks (size_cause size) result (λ _. Unit {0}) }
{
    check_count(size, SIZE, Cause::Size { number: size })
}

pub(crate) fn check_splits(side: Side, size: usize, splits: &[u16]) -> Result<(), Cause>
    ensures { Checks (splits_cause side size splits.now) result (λ _. Unit {0}) }
{
    match first_wrong_split(size, splits) {
        Some(index) => Err(Cause::Splits { side, index }),
        None => Ok(()),
    }
}

pub(crate) fn check_owners(blocks: usize, boards: usize, owners: &[u8]) -> Result<(), Cause>
    ensures { Checks (owners_cause blocks boards owners.now) result (λ _. Unit {0}) }
{
    match first_wrong_owner(blocks, boards, owners) {
        Some(index) => Err(Cause::Owners { index }),
        None => Ok(()),
    }
}
