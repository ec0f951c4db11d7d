// The prices of the packages under a plan.
ghost use Rattle.std.specs.Prelude.{◌≡◌, ℕ, ◌<◌, ◌≤◌, Bool, length};
ghost use Rattle.assignment_laws.specs.Judging.{Certified};
ghost use Rattle.settling.specs.Prices.{cost_of, question};
ghost use Rattle.settling.specs.Records.{BlankPast, ColumnFilled, name_in, price_at, proposed};
ghost use Rattle.settling.specs.Settling.{Settles};

use crate::packages::Packages;
use crate::pricing::Pricing;
use crate::settlement::Settlement;
use plans::Plan;
use tariffs::Tariff;

impl<'a, T: Tariff> Pricing<'a, T> {
    // Records what the packages for the role cost, which the receiver gets.
    fn fill_column(
        &self,
        prices: &mut [u64; 256],
        packages: &Packages,
        role: usize,
        receiver: usize,
    )
        requires role_bound { role < self.now.drawing.now.target.boards }
        requires receiver_bound { receiver < self.now.drawing.now.target.boards }
        ensures { ColumnFilled (T.cost self.now.tariff.now) self.now.drawing.now.target.boards packages.now.bytes self.now.transformed role receiver prices.old prices.new }
    {
        for sender in 0..self.drawing.target.boards {
            prices[sender * 16 + role] = self.price(packages, sender, receiver);
        }
    }

    // What each board's package for each role costs under the plan's naming.
    fn prices_under(&self, plan: &Plan) -> [u64; 256]
        requires plan { plan.now.boards ≡ self.now.drawing.now.target.boards }
        requires names { (x : ℕ) → x < plan.now.boards → name_in plan.now x < plan.now.boards }
        ensures len { length result ≡ 256 }
        ensures past { BlankPast self.now.drawing.now.target.boards result }
        ensures items { (i x : ℕ) → i < self.now.drawing.now.target.boards → x < self.now.drawing.now.target.boards → price_at result i x ≡ T.cost self.now.tariff.now (question self.now.drawing.now self.now.words self.now.transformed i x (name_in plan.now x)) }
    {
        let mut prices = [0; 256];
        for role in 0..plan.boards {
            let packages = self.packages(role);
            let receiver = plan.line(role).unwrap().board;
            self.fill_column(&mut prices, &packages, role, receiver);
        }
        prices
    }

    // A certified plan with the prices of its packages.
    pub(crate) fn settlement(&self, plan: Plan) -> Settlement
        requires plan { plan.boards ≡ self.now.drawing.now.target.boards }
        requires certified { Certified (cost_of (T.cost self.now.tariff.now) self.now.drawing.now self.now.words self.now.transformed) self.now.drawing.now.target.boards (proposed plan) }
        ensures plan { result.plan ≡ plan }
        ensures settles { Settles (T.cost self.now.tariff.now) self.now.drawing.now self.now.words self.now.transformed result }
    {
        let prices = self.prices_under(&plan);
        Settlement { plan, prices }
    }
}
