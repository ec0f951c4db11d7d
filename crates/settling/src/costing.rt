// The table of what each role costs on each board.
ghost use Rattle.std.specs.Prelude.{◌≡◌, ◌^◌, ◌<◌, ◌≤◌, Bool, slice_index};
ghost use Rattle.assignment_laws.specs.Namings.{total};
ghost use Rattle.faults.specs.Answers.{Answers};
ghost use Rattle.faults.specs.declared.fault.Layer.{Layer};
ghost use Rattle.settling.specs.Prices.{Costed, Marked, RowFilled, asked, count_refusal};

use crate::packages::Packages;
use crate::pricing::Pricing;
use assignment_costs::Costs;
use drawings::Drawing;
use elements::Element;
use faults::{Call, Fault};
use tariffs::Tariff;

impl<'a, T: Tariff> Pricing<'a, T> {
    // What it costs that the packages of all senders go to the receiver.
    fn pair_cost(&self, packages: &Packages, receiver: usize) -> u64
        requires { receiver < self.now.drawing.now.target.boards }
        ensures value { result ≡ total (λ i. T.cost self.now.tariff.now (asked i receiver (slice_index packages.now.bytes i) self.now.transformed)) self.now.drawing.now.target.boards }
        ensures capped { result ≤ 2 ^ 44 }
    {
        (0..self.drawing.target.boards)
            .map(|sender| self.price(packages, sender, receiver))
            .sum()
    }

    // Sets what the role of these packages costs on each board.
    fn fill_row(&self, costs: &mut Costs, packages: &Packages, role: usize)
        requires role_bound { role < costs.old.boards }
        requires boards { costs.old.boards ≡ self.now.drawing.now.target.boards }
        ensures { RowFilled (T.cost self.now.tariff.now) packages.now.bytes self.now.transformed role costs.old costs.new }
    {
        for board in 0..self.drawing.target.boards {
            let cost = self.pair_cost(packages, board);
            costs.set(role, board, cost).unwrap();
        }
    }

    // What each role costs on each board.
    pub(crate) fn costs(&self) -> Costs
        ensures { Costed (T.cost self.now.tariff.now) self.now.drawing.now self.now.words self.now.transformed result }
    {
        let boards = self.drawing.target.boards;
        let mut costs = Costs::zero(boards).unwrap();
        for role in 0..boards {
            let packages = self.packages(role);
            self.fill_row(&mut costs, &packages, role);
        }
        costs
    }
}

// What each role costs on each board, for a call that may be refused.
pub fn costs<E: Element, T: Tariff>(
    call: Call,
    drawing: &Drawing,
    alpha: E,
    tariff: &T,
) -> Result<Costs, Fault>
    ensures { (t : Bool) × Marked drawing.now.operation (alpha ≡ E.unit) t × Answers Layer.Book call (count_refusal drawing.now (T.boards tariff.now)) result (Costed (T.cost tariff.now) drawing.now E.width t) (Unit {0}) }
{
    let pricing = Pricing::new(call, drawing, alpha, tariff)?;
    Ok(pricing.costs())
}
