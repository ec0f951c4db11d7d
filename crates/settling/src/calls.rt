// Settling a drawing by a tariff, and adopting a proposed plan.
ghost use Rattle.std.specs.Prelude.{◌≡◌, Bool};
ghost use Rattle.assignment_laws.specs.Judging.{Certified};
ghost use Rattle.faults.specs.Answers.{Answers};
ghost use Rattle.faults.specs.Checks.{Checks};
ghost use Rattle.settling.specs.Prices.{Marked, cost_of, count_refusal};
ghost use Rattle.settling.specs.Records.{proposed};
ghost use Rattle.settling.specs.Settling.{Settles, adopt_refusal, plan_refusal};

use crate::bridge::{assignment_of, plan_of};
use crate::pricing::{Pricing, check_count};
use crate::settlement::Settlement;
use assignment::{judge, solve};
use drawings::Drawing;
use elements::Element;
use faults::{Call, Cause, Fault, Layer};
use plans::Plan;
use tariffs::Tariff;

impl<'a, T: Tariff> Pricing<'a, T> {
    // A plan of a least naming, with prices that certify it.
    fn least_plan(&self) -> Plan
        ensures count { result.boards ≡ self.now.drawing.now.target.boards }
        ensures certified { Certified (cost_of (T.cost self.now.tariff.now) self.now.drawing.now self.now.words self.now.transformed) self.now.drawing.now.target.boards (proposed result) }
    {
        let costs = self.costs();
        plan_of(costs.boards, &solve(&costs))
    }

    // Refuses a plan for another count of boards than the drawing, and one that its prices do not certify.
    fn check_plan(&self, plan: &Plan) -> Result<(), Cause>
        ensures { Checks (plan_refusal (T.cost self.now.tariff.now) self.now.drawing.now self.now.words self.now.transformed plan.now) result (λ _. (plan.now.boards ≡ self.now.drawing.now.target.boards) × Certified (cost_of (T.cost self.now.tariff.now) self.now.drawing.now self.now.words self.now.transformed) self.now.drawing.now.target.boards (proposed plan.now)) }
    {
        check_count(self.drawing, plan.boards)?;
        judge(&self.costs(), &assignment_of(plan)).map_err(|fault| fault.cause)
    }
}

// A least naming for the drawing by the tariff, with prices that certify it.
pub fn settle<E: Element, T: Tariff>(
    drawing: &Drawing,
    alpha: E,
    tariff: &T,
) -> Result<Settlement, Fault>
    ensures { (t : Bool) × Marked drawing.now.operation (alpha ≡ E.unit) t × Answers Layer.Book Call.Settle (count_refusal drawing.now (T.boards tariff.now)) result (Settles (T.cost tariff.now) drawing.now E.width t) (Unit {0}) }
{
    let pricing = Pricing::new(Call::Settle, drawing, alpha, tariff)?;
    Ok(pricing.settlement(pricing.least_plan()))
}

// The proposed plan, where it is one for the drawing's boards and is certified by its prices.
pub fn adopt<E: Element, T: Tariff>(
    drawing: &Drawing,
    alpha: E,
    tariff: &T,
    plan: &Plan,
) -> Result<Settlement, Fault>
    ensures { (t : Bool) × Marked drawing.now.operation (alpha ≡ E.unit) t × Answers Layer.Book Call.Adopt (adopt_refusal (T.cost tariff.now) drawing.now E.width t (T.boards tariff.now) plan.now) result (λ s. (s.plan ≡ plan.now) × Settles (T.cost tariff.now) drawing.now E.width t s) (Unit {0}) }
{
    let pricing = Pricing::new(Call::Adopt, drawing, alpha, tariff)?;
    pricing
        .check_plan(plan)
        .map_err(|cause| Fault::new(Layer::Book, Call::Adopt, cause))?;
    Ok(pricing.settlement(*plan))
}
