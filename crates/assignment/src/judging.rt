// The bill of a naming, and the judge of a proposed assignment.
ghost use Rattle.std.specs.Prelude.{◌≡◌, ℕ, ◌<◌, ◌≤◌, ◌||◌, Bool, true, None, pos, ◌+ℤ◌, int_lt, IsTrue};
ghost use Rattle.std.specs.Option.{option_map};
ghost use Rattle.assignment_costs.specs.Costs.{cost_at};
ghost use Rattle.assignment.specs.Plans.{Certified, name_of, role_price, board_price, unpriced, unfair, bill_refusal, judge_refusal};
ghost use Rattle.assignment_laws.specs.Judging.{Within, first_below, any_below, misnamed, beyond};
ghost use Rattle.assignment_search.specs.Search.{val};
ghost use Rattle.assignment_laws.specs.Namings.{bill_of, Least};
ghost use Rattle.faults.specs.Answers.{Answers};
ghost use Rattle.faults.specs.Checks.{Checks};
ghost use Rattle.faults.specs.declared.cause.Cause.TheVariants.{Plan};

use crate::plan::{Assignment, MOST_PRICE};
use assignment_costs::Costs;
use faults::{Call, Cause, Fault, Layer};

// What the naming costs. Only its first entries count, one for each role.
pub fn bill(costs: &Costs, naming: &[usize; 16]) -> Result<u64, Fault>
    ensures { Answers Layer.Assignment Call.Bill (bill_refusal costs.now (val naming.now)) result (λ v. v ≡ bill_of (cost_at costs.now) costs.now.boards (val naming.now)) (Unit {0}) }
{
    checked_bill(costs, naming).map_err(|cause| Fault::new(Layer::Assignment, Call::Bill, cause))
}

// Whether the proposal is certified by its prices, so that no naming costs less than its bill.
// Only the first entries of its tables count, one for each board.
pub fn judge(costs: &Costs, plan: &Assignment) -> Result<(), Fault>
    ensures { Answers Layer.Assignment Call.Judge (judge_refusal costs.now plan.now) result (λ _. Certified costs.now plan.now × Least (cost_at costs.now) costs.now.boards plan.now.bill) (Unit {0}) }
{
    check_plan(costs, plan).map_err(|cause| Fault::new(Layer::Assignment, Call::Judge, cause))
}

fn checked_bill(costs: &Costs, naming: &[usize; 16]) -> Result<u64, Cause>
    ensures { Checks (bill_refusal costs.now (val naming.now)) result (λ v. v ≡ bill_of (cost_at costs.now) costs.now.boards (val naming.now)) }
{
    check_roles(costs.boards, |role| is_misnamed(costs.boards, naming, role))?;
    Ok(sum_of(costs, naming))
}

fn check_plan(costs: &Costs, plan: &Assignment) -> Result<(), Cause>
    ensures { Checks (judge_refusal costs.now plan.now) result (λ _. Certified costs.now plan.now × Least (cost_at costs.now) costs.now.boards plan.now.bill) }
{
    check_roles(costs.boards, |role| is_unfit(costs.boards, plan, role))?;
    check_roles(costs.boards, |role| is_unfair(costs, plan, role))?;
    if plan.bill != sum_of(costs, &plan.naming) {
        return Err(Cause::Plan { role: costs.boards });
    }
    Ok(())
}

// Refuses the first role that is wrong, if any.
fn check_roles<F: Fn(usize) -> bool>(boards: usize, is_wrong: F) -> Result<(), Cause>
    requires { (x : ℕ) → x < boards → F.pre is_wrong x }
    ensures { (t : ℕ → Bool) → ((x : ℕ) (b : Bool) → x < boards → F.post is_wrong x b → b ≡ t x) → Checks (option_map Plan (first_below t boards)) result (λ _. first_below t boards ≡ None) }
{
    for role in 0..boards {
        if is_wrong(role) {
            return Err(Cause::Plan { role });
        }
    }
    Ok(())
}

// Whether the role has no board, or one that an earlier role has.
fn is_misnamed(boards: usize, naming: &[usize; 16], role: usize) -> bool
    requires { role < 16 }
    ensures { result ≡ misnamed boards (val naming.now) role }
{
    let name = naming[role];
    boards <= name || naming[..role].contains(&name)
}

// The sum of the pairs' costs. A chain would have to index as the loop does, since the naming says where a cost stands.
pub(crate) fn sum_of(costs: &Costs, naming: &[usize; 16]) -> u64
    requires { (x : ℕ) → x < costs.now.boards → val naming.now x < costs.now.boards }
    ensures { result ≡ bill_of (cost_at costs.now) costs.now.boards (val naming.now) }
{
    let mut sum = 0;
    for x in 0..costs.boards {
        sum += costs.table[x * 16 + naming[x]];
    }
    sum
}

fn is_beyond(price: i64) -> bool
    ensures { result ≡ beyond price }
{
    price < -MOST_PRICE || MOST_PRICE < price
}

// Whether the role is named wrongly, or its price or that of the board of its number is out of range.
fn is_unfit(boards: usize, plan: &Assignment, role: usize) -> bool
    requires { role < 16 }
    ensures { result ≡ (misnamed boards (name_of plan.now) role || unpriced plan.now role) }
{
    let misnamed = is_misnamed(boards, &plan.naming, role);
    let role_beyond = is_beyond(plan.roles[role]);
    let board_beyond = is_beyond(plan.boards[role]);
    misnamed || role_beyond || board_beyond
}

// The price of the role and that of the board together.
fn price_of(plan: &Assignment, role: usize, board: usize) -> i64
    requires role { role < 16 }
    requires board { board < 16 }
    requires role_within { Within (role_price plan.now role) }
    requires board_within { Within (board_price plan.now board) }
    ensures { result ≡ role_price plan.now role +ℤ board_price plan.now board }
{
    plan.roles[role] + plan.boards[board]
}

// Whether the prices of the role and of some board are above the pair's cost, or below it at the role's own board.
fn is_unfair(costs: &Costs, plan: &Assignment, role: usize) -> bool
    requires role { role < costs.now.boards }
    requires named { name_of plan.now role < costs.now.boards }
    requires within { (x : ℕ) → x < costs.now.boards → Within (role_price plan.now x) × Within (board_price plan.now x) }
    ensures { result ≡ unfair costs.now plan.now role }
{
    // A chain would have to index two tables as the loop does.
    for board in 0..costs.boards {
        if (costs.table[role * 16 + board] as i64) < price_of(plan, role, board) {
            return true;
        }
    }
    let name = plan.naming[role];
    price_of(plan, role, name) < costs.table[role * 16 + name] as i64
}
