// The runs are worked out by hand.
use cursors::{Cursor, Run, Wanted, next};
use drawings::Drawing;
use faults::Fault;
use layouts::Layout;
use std::test::Fail;

// A target of 3 by 4 whose rows are split at 1, and a source whose columns are split at 3.
fn sample() -> Result<Drawing, Fault> {
    let target = Layout::new('R', 2, 3, 4, &[0, 1, 3], &[0, 4], &[0, 1])?;
    let source = Layout::new('R', 2, 3, 4, &[0, 3], &[0, 3, 4], &[0, 1])?;
    Drawing::new('N', &target, &source, 9, 8)
}

// The next run alone.
fn run(
    drawing: &Drawing,
    longest: usize,
    sender: usize,
    from: Cursor,
    wanted: Wanted,
) -> Option<Run> {
    next(drawing, longest, sender, from, wanted).map(|(found, _)| found)
}

// The cursor behind the next run, or the same one where there is none.
fn behind(
    drawing: &Drawing,
    longest: usize,
    sender: usize,
    from: Cursor,
    wanted: Wanted,
) -> Cursor {
    next(drawing, longest, sender, from, wanted).map_or(from, |(_, cursor)| cursor)
}

#[test]
fn the_first_board_sends_three_runs(rt: HostRuntime) -> Result<(), Fail> {
    let drawing = sample()?;
    let all = Wanted::Others(2);
    let first = Cursor::start();
    let second = behind(&drawing, 60, 0, first, all);
    let third = behind(&drawing, 60, 0, second, all);
    let end = behind(&drawing, 60, 0, third, all);
    assert_eq!(rt;
        run(&drawing, 60, 0, first, all),
        Some(Run {
            cell: 0,
            row: 0,
            column: 0,
            count: 3,
            role: 0,
        })
    );
    assert_eq!(rt;
        run(&drawing, 60, 0, second, all),
        Some(Run {
            cell: 2,
            row: 1,
            column: 0,
            count: 3,
            role: 1,
        })
    );
    assert_eq!(rt;
        run(&drawing, 60, 0, third, all),
        Some(Run {
            cell: 2,
            row: 2,
            column: 0,
            count: 3,
            role: 1,
        })
    );
    assert_eq!(rt; run(&drawing, 60, 0, end, all), None);
    Ok(())
}

#[test]
fn a_wanted_role_is_found_behind_others(rt: HostRuntime) -> Result<(), Fail> {
    let drawing = sample()?;
    let start = Cursor::start();
    assert_eq!(rt;
        run(&drawing, 60, 1, start, Wanted::Role(1)),
        Some(Run {
            cell: 3,
            row: 1,
            column: 3,
            count: 1,
            role: 1,
        })
    );
    assert_eq!(rt;
        run(&drawing, 60, 1, start, Wanted::Others(1)),
        Some(Run {
            cell: 1,
            row: 0,
            column: 3,
            count: 1,
            role: 0,
        })
    );
    assert_eq!(rt; run(&drawing, 60, 1, start, Wanted::Role(2)), None);
    assert_eq!(rt; run(&drawing, 60, 2, start, Wanted::Others(2)), None);
    Ok(())
}

#[test]
fn a_row_is_cut_from_the_left(rt: HostRuntime) -> Result<(), Fail> {
    let drawing = sample()?;
    let start = Cursor::start();
    let all = Wanted::Others(2);
    let second = behind(&drawing, 2, 0, start, all);
    assert_eq!(rt;
        run(&drawing, 2, 0, start, all),
        Some(Run {
            cell: 0,
            row: 0,
            column: 0,
            count: 2,
            role: 0,
        })
    );
    assert_eq!(rt;
        run(&drawing, 2, 0, second, all),
        Some(Run {
            cell: 0,
            row: 0,
            column: 2,
            count: 1,
            role: 0,
        })
    );
    assert_eq!(rt;
        run(&drawing, 0, 0, start, all),
        Some(Run {
            cell: 0,
            row: 0,
            column: 0,
            count: 1,
            role: 0,
        })
    );
    Ok(())
}
