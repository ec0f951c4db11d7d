// Writing a sheet, by the place of each field, as the reader does.
ghost use Rattle.std.specs.Prelude.{◌≡◌, ◌+◌, ◌*◌, ◌^◌, ◌<◌, ◌≤◌, [], ◌∷◌, length, take, pos, unsigned_abs};
ghost use Rattle.std.specs.Fmt.{signed_decimal};
ghost use Rattle.std.proofs.Math.Seq.{paste};
ghost use Rattle.faults.specs.Answers.{Answers};
ghost use Rattle.faults.specs.Checks.{Checks};
ghost use Rattle.faults.specs.declared.fault.Call.{Call};
ghost use Rattle.faults.specs.declared.fault.Layer.{Layer};
ghost use Rattle.sheets.specs.Sheet.{LegalLine, first_line, line_text, lines_text, sheet_length, wrong_column, wrong_line};
ghost use Rattle.plans.specs.Sheet.{Legal, write_refusal, Written};
ghost use Rattle.sheets.specs.Text.{text};

use crate::numeral::numeral;
use crate::plan::Plan;
use faults::{Call, Cause, Fault, Layer};
use sheets::Line;
use sheets::limits::{BILL, BOARDS, PRICE};

// The column of the line's first number that is beyond its limits.
fn wrong(line: &Line, boards: usize) -> Option<usize>
    ensures { result ≡ wrong_column boards line.now }
{
    if line.board >= boards {
        Some(5)
    } else if line.u < -PRICE || PRICE < line.u {
        Some(9)
    } else if line.v < -PRICE || PRICE < line.v {
        Some(29)
    } else {
        None
    }
}

// Whether every number of the lines is in its limits.
fn check_lines(plan: &Plan) -> Result<(), Cause>
    requires { plan.now.boards ≤ 16 }
    ensures { Checks (wrong_line plan.now.boards 0 (take plan.now.boards plan.now.lines)) result (λ _. Unit {0}) }
{
    for (x, line) in plan.lines[..plan.boards].iter().enumerate() {
        if let Some(column) = wrong(line, plan.boards) {
            let line = x + 2;
            return Err(Cause::Field { line, column });
        }
    }
    Ok(())
}

// Whether the plan is written to so many bytes.
#[tactic(auto, using(std::proofs::lemmas::Bool::Decides::nat_tests), unfolding(crate::specs::Sheet::write_refusal))]
fn check_plan(plan: &Plan, room: usize) -> Result<(), Cause>
    ensures { Checks (write_refusal plan.now room) result (λ _. Legal plan.now × (sheet_length plan.now.boards ≤ room)) }
{
    let boards = plan.boards;
    if boards < 1 || BOARDS < boards {
        return Err(Cause::Board { number: boards });
    }
    let due = 25 + 49 * boards;
    if room < due {
        return Err(Cause::Length { due });
    }
    if plan.bill > BILL as u64 {
        return Err(Cause::Field { line: 1, column: 5 });
    }
    check_lines(plan)
}

// Puts a number's text into the `width` columns at `at`.
fn put(buffer: &mut [u8], at: usize, width: usize, z: i64)
    requires { (width ≤ 20) × (at + width ≤ length buffer.old) × (length (signed_decimal z) ≤ width) }
    ensures { buffer.new ≡ paste buffer.old at (text width z) width }
{
    let columns = numeral(z);
    buffer[at..at + width].copy_from_slice(&columns[20 - width..20]);
}

// Puts a number into the four columns at `at`.
// It and `put_wide` are one `put`: they differ in the number's type, and each shows once that its numbers fit.
fn put_small(buffer: &mut [u8], at: usize, n: usize)
    requires { (at + 4 ≤ length buffer.old) × (n ≤ 999) }
    ensures { buffer.new ≡ paste buffer.old at (text 4 (pos n)) 4 }
{
    put(buffer, at, 4, n as i64);
}

// Puts a number into the twenty columns at `at`.
fn put_wide(buffer: &mut [u8], at: usize, z: i64)
    requires { (at + 20 ≤ length buffer.old) × (unsigned_abs z ≤ 2 ^ 62) }
    ensures { buffer.new ≡ paste buffer.old at (text 20 z) 20 }
{
    put(buffer, at, 20, z);
}

// Ends a line at `at`.
fn put_end(buffer: &mut [u8], at: usize)
    requires { at + 1 ≤ length buffer.old }
    ensures { buffer.new ≡ paste buffer.old at (10 ∷ []) 1 }
{
    buffer[at] = b'\n';
}

// Puts the line of number `x` at `at`.
fn put_line(buffer: &mut [u8], at: usize, x: usize, line: &Line)
    requires { (x < 16) × (at + 49 ≤ length buffer.old) × LegalLine 16 line.now }
    ensures { buffer.new ≡ paste buffer.old at (line_text x line.now) 49 }
{
    put_small(buffer, at, x);
    put_small(buffer, at + 4, line.board);
    put_wide(buffer, at + 8, line.u);
    put_wide(buffer, at + 28, line.v);
    put_end(buffer, at + 48);
}

// Puts the first line.
fn put_first(buffer: &mut [u8], boards: usize, bill: u64)
    requires { (25 ≤ length buffer.old) × (boards ≤ 16) × (bill ≤ 281474976710656) }
    ensures { buffer.new ≡ paste buffer.old 0 (first_line boards bill) 25 }
{
    put_small(buffer, 0, boards);
    put_wide(buffer, 4, bill as i64);
    put_end(buffer, 24);
}

// Puts the lines after the first.
fn put_lines(buffer: &mut [u8], plan: &Plan)
    requires { Legal plan.now × (sheet_length plan.now.boards ≤ length buffer.old) }
    ensures after { buffer.new ≡ paste buffer.old 25 (lines_text 0 (take plan.now.boards plan.now.lines)) (49 * plan.now.boards) }
    ensures len { 49 * plan.now.boards ≡ length (lines_text 0 (take plan.now.boards plan.now.lines)) }
{
    for (x, line) in plan.lines[..plan.boards].iter().enumerate() {
        put_line(buffer, 25 + 49 * x, x, line);
    }
}

impl Plan {
    // Writes the plan's sheet to the front of the buffer, and answers its length.
    pub fn write(&self, buffer: &mut [u8]) -> Result<usize, Fault>
        ensures { Answers Layer.Plans Call.Write (write_refusal self.now (length buffer.old)) result (λ k. Written self.now buffer.old k buffer.new) (buffer.new ≡ buffer.old) }
    {
        check_plan(self, buffer.len()).map_err(|cause| Fault::new(
            Layer::Plans,
            Call::Write,
            cause,
        ))?;
        put_first(buffer, self.boards, self.bill);
        put_lines(buffer, self);
        Ok(25 + 49 * self.boards)
    }
}
