// Reading a sheet.
ghost use Rattle.std.specs.Prelude.{◌≡◌, ◌<◌, ◌≤◌};
ghost use Rattle.faults.specs.Answers.{Answers};
ghost use Rattle.faults.specs.Checks.{Checks};
ghost use Rattle.faults.specs.declared.fault.Call.{Call};
ghost use Rattle.faults.specs.declared.fault.Layer.{Layer};
ghost use Rattle.sheets.specs.Sheet.{first_illegal, line_fields, line_text, lines_fields, LegalLine, part, read_refusal, sheet_length};
ghost use Rattle.plans.specs.Sheet.{LinesRead, SheetOf};

use crate::columns::{line_ends, small, wide};
use crate::plan::Plan;
use faults::{Call, Cause, Fault, Layer};
use sheets::Line;
use sheets::limits::{BILL, BOARDS, PRICE};

// The line of number `x` in a sheet for so many boards.
fn read_line(bytes: &[u8], x: usize, boards: usize) -> Result<Line, Cause>
    requires { (x < boards) × (boards ≤ 16) }
    ensures { Checks (first_illegal bytes.now (line_fields boards x)) result (λ l. LegalLine boards l × (part bytes.now (sheet_length x) 49 ≡ line_text x l)) }
{
    let at = 25 + 49 * x;
    let line = x + 2;
    small(bytes, at, x, x).ok_or(Cause::Field { line, column: 1 })?;
    let board = small(bytes, at + 4, 0, boards - 1).ok_or(Cause::Field { line, column: 5 })?;
    let u = wide(bytes, at + 8, -PRICE, PRICE).ok_or(Cause::Field { line, column: 9 })?;
    let v = wide(bytes, at + 28, -PRICE, PRICE).ok_or(Cause::Field { line, column: 29 })?;
    if !line_ends(bytes, at + 48) {
        return Err(Cause::Field { line, column: 49 });
    }
    Ok(Line { board, u, v })
}

// The lines of a sheet for so many boards, as a plan with that bill.
fn read_lines(bytes: &[u8], boards: usize, bill: u64) -> Result<Plan, Cause>
    requires { (1 ≤ boards) × (boards ≤ 16) }
    ensures { Checks (first_illegal bytes.now (lines_fields boards 0 boards)) result (λ p. LinesRead bytes.now boards bill p) }
{
    let mut lines = [Line::default(); BOARDS];
    // The number of a line is both its place and what its first field says.
    for x in 0..boards {
        lines[x] = read_line(bytes, x, boards)?;
    }
    Ok(Plan {
        boards,
        bill,
        lines,
    })
}

#[tactic(auto, unfolding(sheets::specs::Sheet::read_refusal))]
fn read_sheet(bytes: &[u8]) -> Result<Plan, Cause>
    ensures { Checks (read_refusal bytes.now) result (λ p. SheetOf p bytes.now) }
{
    let boards = small(bytes, 0, 1, 16).ok_or(Cause::Field { line: 1, column: 1 })?;
    let bill = wide(bytes, 4, 0, BILL).ok_or(Cause::Field { line: 1, column: 5 })?;
    if !line_ends(bytes, 24) {
        return Err(Cause::Field {
            line: 1,
            column: 25,
        });
    }
    let plan = read_lines(bytes, boards, bill as u64)?;
    if bytes.len() > 25 + 49 * boards {
        let line = boards + 2;
        return Err(Cause::Field { line, column: 1 });
    }
    Ok(plan)
}

impl Plan {
    // The plan whose sheet the bytes are.
    pub fn read(bytes: &[u8]) -> Result<Plan, Fault>
        ensures { Answers Layer.Plans Call.Read (read_refusal bytes.now) result (λ p. SheetOf p bytes.now) (Unit {0}) }
    {
        read_sheet(bytes).map_err(|cause| Fault::new(Layer::Plans, Call::Read, cause))
    }
}
