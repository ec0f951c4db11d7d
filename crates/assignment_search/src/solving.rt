// A board for every role.
ghost use Rattle.std.specs.Prelude.{◌≡◌, ◌-◌, ◌≤◌};
ghost use Rattle.assignment_search.specs.Trees.{Full};

use crate::search::Search;
use crate::tree::{Match, Matching, Prices};
use assignment_costs::Costs;

// A board for every role, with prices that are feasible, and tight at the boards that the roles hold.
pub fn search_naming(costs: &Costs) -> Match
    ensures { Full costs.now result.prices result.matching }
{
    let mut search = Search {
        costs,
        prices: Prices {
            roles: [0; 16],
            discounts: [0; 16],
        },
        matching: Matching {
            owner: [None; 16],
            naming: [None; 16],
        },
        placed: 0,
    };
    for _ in 0..costs.boards {
        search.place();
    }
    Match {
        matching: search.matching,
        prices: search.prices,
    }
}
