// The worked example has a target of 3 rows and 4 columns, its rows split at 1, with roles 0 and 1, and a
// source whose columns are split at 3, with owners 0 and 1.
//
// The turned example has the same target, and a source of 4 rows and 3 columns with its rows split at 3 and
// its columns split at 2, whose blocks 0 to 3 are owned by 0, 1, 1 and 0:
//
//        source          its transpose over the target
//          0 1   2          0 1 2   3
//    0 |  0 0 | 1 |     0 | 0 0 0 | 1 |    role 0
//    1 |  0 0 | 1 |       +-------+---+
//    2 |  0 0 | 1 |     1 | 0 0 0 | 1 |    role 1
//    3 |  1 1 | 0 |       +-------+---+
//                       2 | 1 1 1 | 0 |    role 1
use drawings::{Cell, Drawing};
use faults::{Bank, Call, Cause, Fault, Layer};
use layouts::Layout;
use std::test::Fail;

fn target() -> Result<Layout, Fault> {
    Layout::new('R', 2, 3, 4, &[0, 1, 3], &[0, 4], &[0, 1])
}

fn worked() -> Result<Drawing, Fault> {
    let source = Layout::new('R', 2, 3, 4, &[0, 3], &[0, 3, 4], &[0, 1])?;
    Drawing::new('N', &target()?, &source, 9, 8)
}

fn turned_source() -> Result<Layout, Fault> {
    Layout::new('R', 2, 4, 3, &[0, 3, 4], &[0, 2, 3], &[0, 1, 1, 0])
}

// The cause for which a drawing is refused, if it is.
fn cause_of(made: Result<Drawing, Fault>) -> Option<Cause> {
    made.err().map(|fault| fault.cause)
}

#[test]
fn the_worked_example_has_packages_of_12_4_24_and_8_bytes(rt: HostRuntime) -> Result<(), Fail> {
    let drawing = worked()?;
    assert_eq!(rt; drawing.package_bytes(0, 0, 1)?, 12);
    assert_eq!(rt; drawing.package_bytes(1, 0, 1)?, 4);
    assert_eq!(rt; drawing.package_bytes(0, 1, 1)?, 24);
    assert_eq!(rt; drawing.package_bytes(1, 1, 1)?, 8);
    assert_eq!(rt; drawing.package_bytes(0, 1, 2)?, 48);
    assert_eq!(rt; drawing.package_elements(0, 1)?, 6);
    Ok(())
}

#[test]
fn the_worked_example_has_four_cells(rt: HostRuntime) -> Result<(), Fail> {
    let drawing = worked()?;
    assert_eq!(rt; drawing.cell_count(), 4);
    assert_eq!(rt; drawing.cover(0)?, (0, 0));
    assert_eq!(rt; drawing.cover(1)?, (0, 1));
    assert_eq!(rt; drawing.cover(2)?, (1, 0));
    assert_eq!(rt; drawing.cover(3)?, (1, 1));
    assert_eq!(rt;
        drawing.cell(3)?,
        Cell {
            top: 1,
            left: 3,
            height: 2,
            width: 1,
            role: 1,
            sender: 1,
        }
    );
    Ok(())
}

#[test]
fn a_transpose_takes_owners_with_their_blocks(rt: HostRuntime) -> Result<(), Fail> {
    let drawing = Drawing::new('T', &target()?, &turned_source()?, 7, 8)?;
    assert_eq!(rt; drawing.cell_count(), 6);
    assert_eq!(rt; drawing.cover(1)?, (0, 2));
    assert_eq!(rt; drawing.cover(4)?, (1, 1));
    assert_eq!(rt; drawing.cover(5)?, (1, 3));
    assert_eq!(rt;
        drawing.cell(1)?,
        Cell {
            top: 0,
            left: 3,
            height: 1,
            width: 1,
            role: 0,
            sender: 1,
        }
    );
    assert_eq!(rt; drawing.package_elements(0, 0)?, 3);
    assert_eq!(rt; drawing.package_elements(1, 0)?, 1);
    assert_eq!(rt; drawing.package_elements(0, 1)?, 4);
    assert_eq!(rt; drawing.package_elements(1, 1)?, 4);
    Ok(())
}

#[test]
fn causes_come_in_their_order(rt: HostRuntime) -> Result<(), Fail> {
    let (target, source) = (target()?, turned_source()?);
    assert_eq!(rt;
        cause_of(Drawing::new('X', &target, &source, 0, 0)),
        Some(Cause::Letter { code: 88 })
    );
    assert_eq!(rt;
        cause_of(Drawing::new('N', &target, &source, 0, 0)),
        Some(Cause::Size { number: 4 })
    );
    assert_eq!(rt;
        cause_of(Drawing::new('C', &target, &source, 0, 0)),
        Some(Cause::Share {
            bank: Bank::Source,
            owner: 2,
        })
    );
    assert_eq!(rt;
        cause_of(Drawing::new('C', &target, &source, 6, 0)),
        Some(Cause::Share {
            bank: Bank::Source,
            owner: 0,
        })
    );
    assert_eq!(rt;
        cause_of(Drawing::new('C', &target, &source, 7, 1048577)),
        Some(Cause::Share {
            bank: Bank::Target,
            owner: 2,
        })
    );
    assert_eq!(rt;
        cause_of(Drawing::new('C', &target, &source, 7, 7)),
        Some(Cause::Share {
            bank: Bank::Target,
            owner: 1,
        })
    );
    assert_eq!(rt; cause_of(Drawing::new('C', &target, &source, 7, 8)), None);
    Ok(())
}

#[test]
fn questions_beyond_the_last_are_refused(rt: HostRuntime) -> Result<(), Fail> {
    let drawing = worked()?;
    assert_eq!(rt;
        drawing.cover(4),
        Err(Fault::new(Layer::Drawings, Call::Cover, Cause::Beyond { index: 0 }))
    );
    assert_eq!(rt;
        drawing.package_elements(3, 2),
        Err(Fault::new(Layer::Drawings, Call::Ask, Cause::Board { number: 3 }))
    );
    assert_eq!(rt;
        drawing.package_elements(1, 2),
        Err(Fault::new(Layer::Drawings, Call::Ask, Cause::Board { number: 2 }))
    );
    Ok(())
}
