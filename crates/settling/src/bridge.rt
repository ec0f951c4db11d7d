// A plan as the assignment that it proposes, and back. Both types are other crates', so neither way can be a `From`.
ghost use Rattle.std.specs.Prelude.{◌≡◌, ℕ, ◌<◌, ◌≤◌};
ghost use Rattle.assignment.specs.Plans.{board_price, name_of, role_price};
ghost use Rattle.plans.specs.Plans.{line_of};

use assignment::Assignment;
use plans::{Line, Plan};

// The assignment that the plan proposes.
pub(crate) fn assignment_of(plan: &Plan) -> Assignment
    requires { plan.now.boards ≤ 16 }
    ensures bill { result.bill ≡ plan.now.bill }
    ensures lines { (x : ℕ) → x < plan.now.boards → (name_of result x ≡ (line_of plan.now x).board) × (role_price result x ≡ (line_of plan.now x).u) × (board_price result x ≡ (line_of plan.now x).v) }
{
    let mut naming = [0; 16];
    let mut roles = [0; 16];
    let mut boards = [0; 16];
    for x in 0..plan.boards {
        let line = plan.line(x).unwrap();
        naming[x] = line.board;
        roles[x] = line.u;
        boards[x] = line.v;
    }
    Assignment {
        naming,
        roles,
        boards,
        bill: plan.bill,
    }
}

// The plan for so many boards that the assignment proposes.
pub(crate) fn plan_of(count: usize, found: &Assignment) -> Plan
    requires { count ≤ 16 }
    ensures count { result.boards ≡ count }
    ensures bill { result.bill ≡ found.now.bill }
    ensures lines { (x : ℕ) → x < count → ((line_of result x).board ≡ name_of found.now x) × ((line_of result x).u ≡ role_price found.now x) × ((line_of result x).v ≡ board_price found.now x) }
{
    let mut plan = Plan::new(count, found.bill);
    for x in 0..count {
        let line = Line {
            board: found.naming[x],
            u: found.roles[x],
            v: found.boards[x],
        };
        plan.set_line(x, line).unwrap();
    }
    plan
}
