// The worked example has a target of 3 rows and 4 columns, its rows split at 1, with roles 0 and 1, and a
// source whose columns are split at 3, with owners 0 and 1. Its costs are 4 and 12 for role 0, 8 and 24 for
// role 1.
use book::{Book, BookFault};
use elements::Word;
use faults::{Call, Cause, Fault, Layer, State};
use layouts::Layout;
use plans::{Line, Plan};
use std::test::Fail;
use surcharges::{Charges, Surcharge};
use tariffs::Plain;

// What the layer that refused says.
fn whole<T: Drop>(answer: Result<T, BookFault>) -> Result<T, Fault> {
    answer.map_err(|refusal| refusal.fault)
}

fn own(call: Call, cause: Cause) -> Fault {
    Fault::new(Layer::Book, call, cause)
}

fn line(board: usize, u: i64, v: i64) -> Line {
    Line { board, u, v }
}

// The worked example's book, drawn.
fn worked(alpha: u32) -> Result<Book<Word>, Fault> {
    let target = Layout::new('R', 2, 3, 4, &[0, 1, 3], &[0, 4], &[0, 1])?;
    let source = Layout::new('R', 2, 3, 4, &[0, 3], &[0, 3, 4], &[0, 1])?;
    let mut book = Book::new();
    whole(book.draw('N', &target, &source, Word { value: alpha }, 9, 8))?;
    Ok(book)
}

fn proposal(bill: u64, lines: [Line; 2]) -> Result<Plan, Fault> {
    let mut plan = Plan::new(lines.len(), bill);
    for (role, line) in lines.into_iter().enumerate() {
        plan.set_line(role, line)?;
    }
    Ok(plan)
}

#[test]
fn the_worked_example_exchanges_names_for_20(rt: HostRuntime) -> Result<(), Fail> {
    let mut book = worked(1)?;
    whole(book.settle(&Plain::new(2)?))?;
    let plan = whole(book.plan())?;
    assert_eq!(rt; plan.bill, 20);
    for (role, board) in [1, 0].into_iter().enumerate() {
        assert_eq!(rt; plan.line(role)?.board, board);
    }
    for (sender, role, price) in [(0, 0, 12), (1, 0, 0), (0, 1, 0), (1, 1, 8)] {
        assert_eq!(rt; whole(book.package_price(sender, role))?, price);
    }
    assert_eq!(rt; whole(book.package_bytes(0, 1))?, 24);
    assert_eq!(rt; whole(book.cover(2))?, (1, 0));
    Ok(())
}

#[test]
fn a_transformed_turn_pays_the_surcharge(rt: HostRuntime) -> Result<(), Fail> {
    let plain = Plain::new(2)?;
    let charges = Charges::new(&plain, &[5, 0])?;
    let tariff = Surcharge::new(plain, charges);
    let mut book = worked(1)?;
    whole(book.settle(&tariff))?;
    assert_eq!(rt; whole(book.plan())?.bill, 20);
    let mut book = worked(2)?;
    whole(book.settle(&tariff))?;
    let plan = whole(book.plan())?;
    assert_eq!(rt; plan.bill, 108);
    assert_eq!(rt; plan.line(0)?.board, 0);
    Ok(())
}

#[test]
fn a_proposed_plan_is_taken_or_leaves_the_earlier_one(rt: HostRuntime) -> Result<(), Fail> {
    let tariff = Plain::new(2)?;
    let mut book = worked(1)?;
    let good = proposal(20, [line(1, 4, 0), line(0, 8, 8)])?;
    whole(book.adopt(&tariff, &good))?;
    assert_eq!(rt; whole(book.plan())?.line(1)?, line(0, 8, 8));
    // Prices that are unfair, a board that is named twice, and a bill that is too low.
    let refused = [
        (20, [line(1, 5, 0), line(0, 8, 7)]),
        (20, [line(1, 4, 0), line(1, 8, 8)]),
        (19, [line(1, 4, 0), line(0, 8, 8)]),
    ];
    for (role, (bill, lines)) in refused.into_iter().enumerate() {
        assert_eq!(rt;
            whole(book.adopt(&tariff, &proposal(bill, lines)?)),
            Err(own(Call::Adopt, Cause::Plan { role }))
        );
    }
    assert_eq!(rt;
        whole(book.adopt(&tariff, &Plan::new(3, 0))),
        Err(own(Call::Adopt, Cause::Count { number: 3 }))
    );
    assert_eq!(rt; whole(book.plan())?.bill, 20);
    assert_eq!(rt; book.state(), State::Settled);
    Ok(())
}

#[test]
fn the_state_is_asked_before_the_tariff(rt: HostRuntime) -> Result<(), Fail> {
    let tariff = Plain::new(3)?;
    let mut empty: Book<Word> = Book::new();
    let forbidden = Cause::State {
        state: State::Empty,
    };
    assert_eq!(rt; empty.state(), State::Empty);
    assert_eq!(rt;
        whole(empty.settle(&tariff)),
        Err(own(Call::Settle, forbidden))
    );
    assert_eq!(rt; whole(empty.cover(9)), Err(own(Call::Cover, forbidden)));
    assert_eq!(rt;
        whole(empty.package_price(9, 9)),
        Err(own(Call::Ask, forbidden))
    );
    let mut book = worked(1)?;
    assert_eq!(rt; book.state(), State::Drawn);
    assert_eq!(rt;
        whole(book.settle(&tariff)),
        Err(own(Call::Settle, Cause::Count { number: 3 }))
    );
    assert_eq!(rt;
        whole(book.package_price(0, 0)),
        Err(own(
            Call::Ask,
            Cause::State {
                state: State::Drawn,
            },
        ))
    );
    Ok(())
}

// Block k of the source is board k's, and of the target role (k + 1) mod 3's; so no byte travels where role
// 0 is board 2, role 1 board 0 and role 2 board 1.
#[test]
fn names_go_from_roles_to_boards(rt: HostRuntime) -> Result<(), Fail> {
    let target = Layout::new('R', 3, 1, 6, &[0, 1], &[0, 1, 3, 6], &[1, 2, 0])?;
    let source = Layout::new('C', 3, 6, 1, &[0, 1, 3, 6], &[0, 1], &[0, 1, 2])?;
    let mut book = Book::new();
    whole(book.draw('T', &target, &source, Word { value: 7 }, 3, 3))?;
    whole(book.settle(&Plain::new(3)?))?;
    let plan = whole(book.plan())?;
    assert_eq!(rt; plan.bill, 0);
    for (role, board) in [2, 0, 1].into_iter().enumerate() {
        assert_eq!(rt; plan.line(role)?.board, board);
    }
    Ok(())
}
