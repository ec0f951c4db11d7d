// The answer of the search, as an assignment.
ghost use Rattle.std.specs.Prelude.{◌≡◌, ℕ, ◌+◌, ◌^◌, ◌<◌, ◌≤◌};
ghost use Rattle.assignment.specs.Plans.{Solved};
ghost use Rattle.assignment_search.specs.Trees.{Full};

use crate::judging::sum_of;
use crate::plan::Assignment;
use assignment_costs::Costs;
use assignment_search::{Match, search_naming};

// A least naming, with prices that certify it.
pub fn solve(costs: &Costs) -> Assignment
    ensures { Solved costs.now result }
{
    let found = search_naming(costs);
    report(costs, &found)
}

fn report(costs: &Costs, found: &Match) -> Assignment
    requires { Full costs.now found.now.prices found.now.matching }
    ensures { Solved costs.now result }
{
    let mut naming = [0; 16];
    let mut roles = [0; 16];
    let mut boards = [0; 16];
    // One loop fills the three tables, which a chain for each would do in three.
    for x in 0..costs.boards {
        naming[x] = found.matching.naming[x].unwrap();
        roles[x] = found.prices.roles[x] as i64;
        boards[x] = -(found.prices.discounts[x] as i64);
    }
    let bill = sum_of(costs, &naming);
    Assignment {
        naming,
        roles,
        boards,
        bill,
    }
}
