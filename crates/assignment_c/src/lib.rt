// The least bill for C, as the benchmark calls it.
#![tactic(auto)]

ghost use Rattle.assignment_c.specs.Exports.{LeastBill};

use assignment::{Costs, solve};

// The least bill of the table that is listed row by row, or the largest number if the table is refused: C has
// no Option.
#[unsafe(no_mangle)]
pub extern "C" fn assignment_least_bill(boards: usize, costs: &[u64]) -> u64
    ensures { LeastBill boards costs.now result }
{
    match Costs::from_rows(boards, costs) {
        Ok(table) => solve(&table).bill,
        Err(_) => u64::MAX,
    }
}
