// Tables of costs: making, reading and writing them.
ghost use Rattle.std.specs.Prelude.{◌≡◌, ℕ, ◌+◌, ◌*◌, ◌^◌, ◌<◌, ◌≤◌, true, length, slice_index};
ghost use Rattle.assignment_costs.specs.Costs.{cost_at, count_refusal, Zeroed, board_refusal, place_refusal, write_refusal, Written, row_rule, rows_refusal, Rowed, Spread, WrongRows};
ghost use Rattle.faults.specs.Answers.{Answers};
ghost use Rattle.faults.specs.Checks.{Checks};
ghost use Rattle.assignment_costs.specs.Completing.{rows_complete};
ghost use Rattle.faults.specs.declared.fault.Call.TheVariants.{At, Make, Set, Zero};
ghost use Rattle.faults.specs.declared.fault.Layer.TheVariants.{Assignment};

use crate::costs::{Costs, MOST_BOARDS, MOST_COST};
use faults::{Call, Cause, Fault, Layer};
use wrong_lists::{ListRule, first_wrong};

impl Costs {
    // The table of `boards` boards on which every role costs nothing.
    pub fn zero(boards: usize) -> Result<Costs, Fault>
        ensures { Answers Assignment Zero (count_refusal boards) result (Zeroed boards) (Unit {0}) }
    {
        free_costs(boards).map_err(|cause| Fault::new(Layer::Assignment, Call::Zero, cause))
    }

    // The table whose costs are listed row by row, a row for each role.
    pub fn from_rows(boards: usize, costs: &[u64]) -> Result<Costs, Fault>
        ensures { Answers Assignment Make (rows_refusal boards costs.now) result (Rowed boards costs.now) (Unit {0}) }
    {
        listed_costs(boards, costs).map_err(|cause| Fault::new(
            Layer::Assignment,
            Call::Make,
            cause,
        ))
    }

    // What `role` costs on `board`.
    pub fn at(&self, role: usize, board: usize) -> Result<u64, Fault>
        ensures { Answers Assignment At (place_refusal self.now role board) result (λ v. v ≡ cost_at self.now role board) (Unit {0}) }
    {
        let place = self
            .place(role, board)
            .map_err(|cause| Fault::new(Layer::Assignment, Call::At, cause))?;
        Ok(self.table[place])
    }

    // Sets what `role` costs on `board`.
    pub fn set(&mut self, role: usize, board: usize, cost: u64) -> Result<(), Fault>
        ensures { Answers Assignment Set (write_refusal self.old role board cost) result (λ _. Written self.old role board cost self.new) (self.new ≡ self.old) }
    {
        let place = self
            .place_of(role, board, cost)
            .map_err(|cause| Fault::new(Layer::Assignment, Call::Set, cause))?;
        self.table[place] = cost;
        Ok(())
    }

    // Where the cost of `role` on `board` stands in the table.
    fn place(&self, role: usize, board: usize) -> Result<usize, Cause>
        ensures { Checks (place_refusal self.now role board) result (λ k. (k ≡ role * 16 + board) × (role < 16) × (board < 16)) }
    {
        self.check_board(role)?;
        self.check_board(board)?;
        Ok(role * 16 + board)
    }

    // Where `cost` may be written.
    fn place_of(&self, role: usize, board: usize, cost: u64) -> Result<usize, Cause>
        ensures { Checks (write_refusal self.now role board cost) result (λ k. (k ≡ role * 16 + board) × (role < 16) × (board < 16) × (cost ≤ 2 ^ 44)) }
    {
        let place = self.place(role, board)?;
        if MOST_COST < cost {
            return Err(Cause::Beyond { index: 0 });
        }
        Ok(place)
    }

    fn check_board(&self, board: usize) -> Result<(), Cause>
        ensures { Checks (board_refusal self.now board) result (λ _. board < self.now.boards) }
    {
        if self.boards <= board {
            return Err(Cause::Board { number: board });
        }
        Ok(())
    }
}

fn check_count(boards: usize) -> Result<(), Cause>
    ensures { Checks (count_refusal boards) result (λ _. (1 ≤ boards) × (boards ≤ 16)) }
{
    if boards == 0 || MOST_BOARDS < boards {
        return Err(Cause::Board { number: boards });
    }
    Ok(())
}

fn free_costs(boards: usize) -> Result<Costs, Cause>
    ensures { Checks (count_refusal boards) result (Zeroed boards) }
{
    check_count(boards)?;
    Ok(Costs {
        boards,
        table: [0; 256],
    })
}

#[tactic(auto, using(crate::proofs::Rows::whole))]
fn listed_costs(boards: usize, costs: &[u64]) -> Result<Costs, Cause>
    ensures { Checks (rows_refusal boards costs.now) result (Rowed boards costs.now) }
{
    check_count(boards)?;
    if let Some(index) = first_wrong(&RowRule { boards }, costs) {
        return Err(Cause::Beyond { index });
    }
    let table = spread(boards, costs);
    Ok(Costs { boards, table })
}

// The rule of the costs of so many boards, row by row.
#[derive(Clone, Copy)]
struct RowRule {
    boards: usize,
    ghost most: { boards ≤ 16 },
}

impl ListRule for RowRule {
    type Entry = u64;

    ghost may = { λ r. row_rule r.boards };

    ghost completes = { λ r. rows_complete r.boards };

    fn may_stand(&self, k: usize, _before: Option<u64>, here: Option<u64>) -> bool
        ensures value { result ≡ row_rule self.now.boards k _before here }
    {
        let due = self.boards * self.boards;
        match here {
            None => k == due,
            Some(cost) => k < due && cost <= MOST_COST,
        }
    }
}

// The rows of a list, each at a multiple of 16. To copy a row as a slice takes four bounds, and two loops read plainer.
fn spread(boards: usize, costs: &[u64]) -> [u64; 256]
    requires most { boards ≤ 16 }
    requires whole { length costs.now ≡ boards * boards }
    requires capped { (k : ℕ) → slice_index costs.now k ≤ 2 ^ 44 }
    ensures { Spread boards costs.now result }
{
    let mut table = [0; 256];
    for x in 0..boards {
        for y in 0..boards {
            table[x * 16 + y] = costs[x * boards + y];
        }
    }
    table
}

// Names the law of wrong lists for lists of costs. It answers true.
pub fn wrong_rows_stand() -> bool
    ensures law { WrongRows }
    ensures answer { result ≡ true }
{
    true
}
