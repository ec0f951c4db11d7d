// The sheets are written out by hand.
use faults::{Cause, Fault};
use plans::{Line, Plan};
use std::process::Abort;
use std::test::Fail;

const SAMPLE: &[u8] =
    b"   2                  20\n   0   1                   4                   0\n   1   0                   8                   8\n";

fn cause<T: Drop>(answer: Result<T, Fault>) -> Option<Cause> {
    answer.err().map(|fault| fault.cause)
}

// The cause for which a sheet is refused.
fn read(bytes: &[u8]) -> Option<Cause> {
    cause(Plan::read(bytes))
}

// The cause for which a plan with one line is not written to so many bytes.
fn written(rt: &impl Abort, boards: usize, bill: u64, line: Line, room: usize) -> Option<Cause> {
    let mut plan = Plan::new(boards, bill);
    let _ = plan.set_line(0, line);
    let mut buffer = [7u8; 900];
    assert!(rt; room <= 900);
    cause(plan.write(&mut buffer[0..room]))
}

#[test]
fn the_sample_names_two_boards(rt: HostRuntime) -> Result<(), Fail> {
    let plan = Plan::read(SAMPLE)?;
    assert!(rt; plan.boards() == 2);
    assert!(rt; plan.bill() == 20);
    assert_eq!(rt;
        plan.line(0)?,
        Line {
            board: 1,
            u: 4,
            v: 0,
        }
    );
    assert_eq!(rt;
        plan.line(1)?,
        Line {
            board: 0,
            u: 8,
            v: 8,
        }
    );
    assert_eq!(rt; cause(plan.line(2)), Some(Cause::Board { number: 2 }));
    Ok(())
}

#[test]
fn a_sheet_needs_every_byte_and_no_more(rt: HostRuntime) {
    assert!(rt; SAMPLE.len() == 123);
    assert_eq!(rt;
        read(&SAMPLE[0..0]),
        Some(Cause::Field { line: 1, column: 1 })
    );
    assert_eq!(rt;
        read(&SAMPLE[0..24]),
        Some(Cause::Field {
            line: 1,
            column: 25,
        })
    );
    assert_eq!(rt;
        read(&SAMPLE[0..122]),
        Some(Cause::Field {
            line: 3,
            column: 49,
        })
    );
    assert_eq!(rt;
        read(b"   1                   0\n   0   0                   0                   0\n\n"),
        Some(Cause::Field { line: 3, column: 1 })
    );
}

#[test]
fn a_number_is_written_one_way_only(rt: HostRuntime) {
    assert_eq!(rt;
        read(b"  01                   0\n"),
        Some(Cause::Field { line: 1, column: 1 })
    );
    assert_eq!(rt;
        read(b"1                      0\n"),
        Some(Cause::Field { line: 1, column: 1 })
    );
    assert_eq!(rt;
        read(b"   1                  -0\n"),
        Some(Cause::Field { line: 1, column: 5 })
    );
    assert_eq!(rt;
        read(b"   1                  +1\n"),
        Some(Cause::Field { line: 1, column: 5 })
    );
    assert_eq!(rt;
        read(b"   1                 0 7\n"),
        Some(Cause::Field { line: 1, column: 5 })
    );
    assert_eq!(rt;
        read(b"   1                   7\r\n"),
        Some(Cause::Field {
            line: 1,
            column: 25,
        })
    );
}

#[test]
fn boards_and_bill_keep_their_limits(rt: HostRuntime) {
    assert_eq!(rt;
        read(b"   0                   0\n"),
        Some(Cause::Field { line: 1, column: 1 })
    );
    assert_eq!(rt;
        read(b"  17                   0\n"),
        Some(Cause::Field { line: 1, column: 1 })
    );
    assert_eq!(rt;
        read(b"  16                   0\n"),
        Some(Cause::Field { line: 2, column: 1 })
    );
    assert_eq!(rt;
        read(b"   1     281474976710656\n"),
        Some(Cause::Field { line: 2, column: 1 })
    );
    assert_eq!(rt;
        read(b"   1     281474976710657\n"),
        Some(Cause::Field { line: 1, column: 5 })
    );
    assert_eq!(rt;
        read(b"   1                  -1\n"),
        Some(Cause::Field { line: 1, column: 5 })
    );
}

#[test]
fn lines_keep_their_limits(rt: HostRuntime) {
    assert_eq!(rt;
        read(b"   1                   0\n   1   0                   0                   0\n"),
        Some(Cause::Field { line: 2, column: 1 })
    );
    assert_eq!(rt;
        read(b"   1                   0\n   0   1                   0                   0\n"),
        Some(Cause::Field { line: 2, column: 5 })
    );
    assert_eq!(rt;
        read(b"   1                   0\n   0   0    1125899906842624   -1125899906842624\n"),
        None
    );
    assert_eq!(rt;
        read(b"   1                   0\n   0   0    1125899906842625                   0\n"),
        Some(Cause::Field { line: 2, column: 9 })
    );
    assert_eq!(rt;
        read(b"   1                   0\n   0   0                   0   -1125899906842625\n"),
        Some(Cause::Field {
            line: 2,
            column: 29,
        })
    );
}

#[test]
fn the_writer_refuses_in_its_order(rt: HostRuntime) {
    let good = Line {
        board: 0,
        u: 1_125_899_906_842_624,
        v: -1_125_899_906_842_624,
    };
    let bad = Line {
        board: 1,
        u: 1_125_899_906_842_625,
        v: 0,
    };
    assert_eq!(rt; written(&rt, 1, 281_474_976_710_656, good, 74), None);
    assert_eq!(rt;
        written(&rt, 0, 281_474_976_710_657, bad, 0),
        Some(Cause::Board { number: 0 })
    );
    assert_eq!(rt;
        written(&rt, 17, 0, good, 900),
        Some(Cause::Board { number: 17 })
    );
    assert_eq!(rt;
        written(&rt, 1, 281_474_976_710_657, bad, 73),
        Some(Cause::Length { due: 74 })
    );
    assert_eq!(rt;
        written(&rt, 1, 281_474_976_710_657, bad, 74),
        Some(Cause::Field { line: 1, column: 5 })
    );
    assert_eq!(rt;
        written(&rt, 1, 0, bad, 74),
        Some(Cause::Field { line: 2, column: 5 })
    );
    assert_eq!(rt;
        written(&rt, 2, 0, bad, 123),
        Some(Cause::Field { line: 2, column: 9 })
    );
}

#[test]
fn the_buffer_keeps_what_follows_the_sheet(rt: HostRuntime) -> Result<(), Fail> {
    let plan = Plan::read(SAMPLE)?;
    let mut buffer = [7u8; 200];
    assert!(rt; plan.write(&mut buffer)? == 123);
    assert!(rt; &buffer[0..123] == SAMPLE);
    assert!(rt; buffer[123] == 7 && buffer[199] == 7);
    Ok(())
}
