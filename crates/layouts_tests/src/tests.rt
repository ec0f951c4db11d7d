// The example is a matrix of 5 rows and 6 columns over 3 boards, with rows split at 2 and columns split
// at 1 and 4:
//
//            0   1 2 3   4 5
//        0 | 0 | 1 1 1 | 0 0 |
//        1 | 0 | 1 1 1 | 0 0 |
//        2 | 2 | 0 0 0 | 1 1 |
//        3 | 2 | 0 0 0 | 1 1 |
//        4 | 2 | 0 0 0 | 1 1 |
use faults::{Call, Cause, Fault, Layer, Side};
use layouts::{Block, Layout, Spot};
use std::test::Fail;

fn example(letter: char) -> Result<Layout, Fault> {
    Layout::new(
        letter,
        3,
        5,
        6,
        &[0, 2, 5],
        &[0, 1, 4, 6],
        &[0, 1, 0, 2, 0, 1],
    )
}

// The cause for which a layout is refused, if it is.
fn cause_of(made: Result<Layout, Fault>) -> Option<Cause> {
    made.err().map(|fault| fault.cause)
}

#[test]
fn the_example_answers_its_parts(rt: HostRuntime) -> Result<(), Fail> {
    let layout = example('C')?;
    assert_eq!(rt; layout.boards(), 3);
    assert_eq!(rt; layout.rows(), 5);
    assert_eq!(rt; layout.columns(), 6);
    assert_eq!(rt; layout.letter(), 'C');
    assert_eq!(rt; layout.row_blocks(), 2);
    assert_eq!(rt; layout.column_blocks(), 3);
    assert_eq!(rt; layout.total(0)?, 15);
    assert_eq!(rt; layout.total(1)?, 12);
    assert_eq!(rt; layout.total(2)?, 3);
    assert_eq!(rt;
        layout.block(5)?,
        Block {
            top: 2,
            left: 4,
            height: 3,
            width: 2,
            owner: 1,
            start: 6,
        }
    );
    Ok(())
}

#[test]
fn elements_lie_by_rows_or_by_columns_inside_a_block(rt: HostRuntime) -> Result<(), Fail> {
    let by_rows = example('R')?;
    assert_eq!(rt; by_rows.cover(3, 5)?, 5);
    assert_eq!(rt; by_rows.place(16, 3, 5)?, 25);
    assert_eq!(rt;
        by_rows.spot(3, 5)?,
        Spot {
            owner: 1,
            offset: 9,
            row_step: 1,
            column_step: 2,
        }
    );
    let by_columns = example('C')?;
    assert_eq!(rt; by_columns.place(16, 3, 5)?, 26);
    assert_eq!(rt;
        by_columns.spot_in(5, 3, 5)?,
        Spot {
            owner: 1,
            offset: 10,
            row_step: 3,
            column_step: 1,
        }
    );
    Ok(())
}

#[test]
fn questions_beyond_their_range_are_refused(rt: HostRuntime) -> Result<(), Fail> {
    let layout = example('R')?;
    let beyond = Fault::new(Layer::Layouts, Call::Ask, Cause::Beyond { index: 0 });
    let board = Fault::new(Layer::Layouts, Call::Ask, Cause::Board { number: 3 });
    assert_eq!(rt; layout.total(3), Err(board));
    assert_eq!(rt; layout.cover(5, 0), Err(beyond));
    assert_eq!(rt; layout.cover(0, 6), Err(beyond));
    assert_eq!(rt; layout.block(6), Err(beyond));
    assert_eq!(rt; layout.spot_in(0, 0, 1), Err(beyond));
    assert_eq!(rt; layout.place(16, 5, 6), Err(beyond));
    Ok(())
}

#[test]
fn sixteen_boards_pass_and_seventeen_do_not(rt: HostRuntime) {
    assert_eq!(rt;
        cause_of(Layout::new('R', 16, 1, 1, &[0, 1], &[0, 1], &[15])),
        None
    );
    assert_eq!(rt;
        cause_of(Layout::new('R', 17, 1, 1, &[0, 1], &[0, 1], &[15])),
        Some(Cause::Board { number: 17 })
    );
    assert_eq!(rt;
        cause_of(Layout::new('X', 17, 0, 0, &[], &[], &[])),
        Some(Cause::Letter { code: 88 })
    );
    assert_eq!(rt;
        cause_of(Layout::new('C', 1, 1024, 1025, &[], &[], &[])),
        Some(Cause::Size { number: 1025 })
    );
}

#[test]
fn splits_rise_from_zero_to_the_size(rt: HostRuntime) {
    let rows = Side::Rows;
    assert_eq!(rt;
        cause_of(Layout::new('R', 1, 3, 1, &[0, 3, 3], &[0, 1], &[0])),
        Some(Cause::Splits {
            side: rows,
            index: 2,
        })
    );
    assert_eq!(rt;
        cause_of(Layout::new('R', 1, 4, 1, &[0, 3], &[0, 1], &[0])),
        Some(Cause::Splits {
            side: rows,
            index: 2,
        })
    );
    assert_eq!(rt;
        cause_of(Layout::new('R', 1, 4, 1, &[1, 4], &[0, 1], &[0])),
        Some(Cause::Splits {
            side: rows,
            index: 0,
        })
    );
    assert_eq!(rt;
        cause_of(Layout::new('R', 1, 4, 1, &[0, 4], &[0, 2], &[0])),
        Some(Cause::Splits {
            side: Side::Columns,
            index: 1,
        })
    );
}

// The numbers from 0 to 33.
const RISING: [u16; 34] = [
    0, 1, 2, 3, 4, 5, 6, 7, 8, 9, 10, 11, 12, 13, 14, 15, 16, 17, 18, 19, 20, 21, 22, 23, 24, 25,
    26, 27, 28, 29, 30, 31, 32, 33,
];

#[test]
fn thirty_three_splits_pass_and_thirty_four_do_not(rt: HostRuntime) {
    assert_eq!(rt;
        cause_of(Layout::new('R', 1, 32, 1, &RISING[0..33], &[0, 1], &[0; 32])),
        None
    );
    assert_eq!(rt;
        cause_of(Layout::new('R', 1, 32, 1, &RISING, &[0, 1], &[0; 32])),
        Some(Cause::Splits {
            side: Side::Rows,
            index: 33,
        })
    );
    assert_eq!(rt;
        cause_of(Layout::new('R', 1, 33, 1, &RISING, &[0, 1], &[0; 33])),
        Some(Cause::Splits {
            side: Side::Rows,
            index: 32,
        })
    );
}

#[test]
fn each_block_has_one_owner_below_the_boards(rt: HostRuntime) {
    assert_eq!(rt;
        cause_of(Layout::new('R', 2, 2, 1, &[0, 1, 2], &[0, 1], &[1])),
        Some(Cause::Owners { index: 1 })
    );
    assert_eq!(rt;
        cause_of(Layout::new('R', 2, 2, 1, &[0, 1, 2], &[0, 1], &[1, 0, 0])),
        Some(Cause::Owners { index: 2 })
    );
    assert_eq!(rt;
        cause_of(Layout::new('R', 2, 2, 1, &[0, 1, 2], &[0, 1], &[2, 0])),
        Some(Cause::Owners { index: 0 })
    );
}
