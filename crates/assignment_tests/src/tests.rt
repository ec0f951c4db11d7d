// Small tables, with bills and prices worked by hand.
use assignment::{Assignment, Costs, bill, judge, solve};
use faults::{Cause, Fault};
use std::test::Fail;

const MOST: u64 = 17_592_186_044_416;

// The number of the fault, if any.
fn number<T: Drop>(answer: Result<T, Fault>) -> Option<u32> {
    answer.err().map(|fault| fault.number())
}

fn named(names: &[usize]) -> [usize; 16] {
    let mut naming = [0; 16];
    for (slot, name) in naming.iter_mut().zip(names) {
        *slot = *name;
    }
    naming
}

#[test]
fn cheapest_pair_first_is_not_least(rt: HostRuntime) -> Result<(), Fail> {
    let costs = Costs::from_rows(2, &[0, 1, 1, 10])?;
    assert_eq!(rt; bill(&costs, &named(&[0, 1]))?, 10);
    assert_eq!(rt; bill(&costs, &named(&[1, 0]))?, 2);
    assert_eq!(rt; solve(&costs).bill, 2);
    Ok(())
}

#[test]
fn an_exchange_saves_eight(rt: HostRuntime) -> Result<(), Fail> {
    let costs = Costs::from_rows(2, &[4, 12, 8, 24])?;
    assert_eq!(rt; bill(&costs, &named(&[0, 1]))?, 28);
    assert_eq!(rt; bill(&costs, &named(&[1, 0]))?, 20);
    assert_eq!(rt; solve(&costs).bill, 20);
    Ok(())
}

// Role 0 wants board 1, role 1 board 2, role 2 board 0: read backwards the naming costs 27, not 3.
#[test]
fn a_naming_is_not_its_inverse(rt: HostRuntime) -> Result<(), Fail> {
    let costs = Costs::from_rows(3, &[9, 1, 9, 9, 9, 1, 1, 9, 9])?;
    let best = solve(&costs);
    assert_eq!(rt; best.bill, 3);
    assert!(rt; best.naming[0] == 1 && best.naming[1] == 2 && best.naming[2] == 0);
    assert_eq!(rt; bill(&costs, &named(&[1, 2, 0]))?, 3);
    assert_eq!(rt; bill(&costs, &named(&[2, 0, 1]))?, 27);
    Ok(())
}

#[test]
fn one_board_takes_its_role(rt: HostRuntime) -> Result<(), Fail> {
    let costs = Costs::from_rows(1, &[MOST])?;
    let best = solve(&costs);
    assert_eq!(rt; best.bill, MOST);
    assert!(rt; best.naming[0] == 0);
    Ok(())
}

#[test]
fn sixteen_boards_at_the_limit(rt: HostRuntime) -> Result<(), Fail> {
    let costs = Costs::from_rows(16, &[MOST; 256])?;
    assert_eq!(rt; solve(&costs).bill, 16 * MOST);
    assert_eq!(rt; solve(&Costs::zero(16)?).bill, 0);
    Ok(())
}

#[test]
fn tables_outside_the_limits_are_refused(rt: HostRuntime) {
    assert_eq!(rt; number(Costs::zero(0)), Some(2));
    assert_eq!(rt; number(Costs::zero(17)), Some(2));
    assert_eq!(rt; number(Costs::from_rows(0, &[])), Some(2));
    assert_eq!(rt; number(Costs::from_rows(2, &[0, 0, 0])), Some(17));
    assert_eq!(rt; number(Costs::from_rows(2, &[0, 0, 0, 0, 0])), Some(17));
    assert_eq!(rt; number(Costs::from_rows(1, &[MOST + 1])), Some(17));
}

#[test]
fn a_cost_is_set_and_read_back(rt: HostRuntime) -> Result<(), Fail> {
    let mut costs = Costs::zero(3)?;
    costs.set(1, 2, 7)?;
    assert_eq!(rt; costs.at(1, 2)?, 7);
    assert_eq!(rt; costs.at(2, 1)?, 0);
    assert_eq!(rt; number(costs.set(3, 0, 7)), Some(2));
    assert_eq!(rt; number(costs.set(0, 3, 7)), Some(2));
    assert_eq!(rt; number(costs.set(0, 0, MOST + 1)), Some(17));
    assert_eq!(rt; number(costs.at(0, 3)), Some(2));
    assert_eq!(rt; number(costs.at(3, 0)), Some(2));
    Ok(())
}

// u = (1, 2) and v = (-1, 0) certify the exchange on the rows (0, 1) and (1, 10).
fn plan() -> Assignment {
    let mut roles = [0; 16];
    let mut boards = [0; 16];
    roles[0] = 1;
    roles[1] = 2;
    boards[0] = -1;
    Assignment {
        naming: named(&[1, 0]),
        roles,
        boards,
        bill: 2,
    }
}

// Why a plan is refused, if it is.
fn refused(costs: &Costs, plan: &Assignment) -> Option<Cause> {
    judge(costs, plan).err().map(|fault| fault.cause)
}

#[test]
fn the_judge_accepts_prices_worked_by_hand(rt: HostRuntime) -> Result<(), Fail> {
    let costs = Costs::from_rows(2, &[0, 1, 1, 10])?;
    assert_eq!(rt; refused(&costs, &plan()), None);
    assert_eq!(rt; refused(&costs, &solve(&costs)), None);
    Ok(())
}

#[test]
fn the_judge_names_the_first_role_that_fails(rt: HostRuntime) -> Result<(), Fail> {
    let costs = Costs::from_rows(2, &[0, 1, 1, 10])?;
    let twice = Assignment {
        naming: named(&[1, 1]),
        ..plan()
    };
    assert_eq!(rt; refused(&costs, &twice), Some(Cause::Plan { role: 1 }));
    let beyond = Assignment {
        naming: named(&[2, 0]),
        ..plan()
    };
    assert_eq!(rt; refused(&costs, &beyond), Some(Cause::Plan { role: 0 }));
    let mut dear = plan();
    dear.boards[1] = 1_125_899_906_842_625;
    assert_eq!(rt; refused(&costs, &dear), Some(Cause::Plan { role: 1 }));
    let mut loose = plan();
    loose.roles[1] = 1;
    assert_eq!(rt; refused(&costs, &loose), Some(Cause::Plan { role: 1 }));
    let mut above = plan();
    above.boards[0] = 0;
    assert_eq!(rt; refused(&costs, &above), Some(Cause::Plan { role: 0 }));
    let cheap = Assignment { bill: 1, ..plan() };
    assert_eq!(rt; refused(&costs, &cheap), Some(Cause::Plan { role: 2 }));
    Ok(())
}
