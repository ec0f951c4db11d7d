// Reading a sheet and writing it back.
ghost use Rattle.std.specs.Prelude.{◌≡◌, ◌≤◌, ◌++◌, length, drop, IfOk};
ghost use Rattle.faults.specs.Answers.{Answers};
ghost use Rattle.faults.specs.declared.fault.Call.{Call};
ghost use Rattle.faults.specs.declared.fault.Layer.{Layer};
ghost use Rattle.plans.specs.Sheet.{read_refusal};

use crate::plan::Plan;
use faults::Fault;

// The length of the longest sheet, that of a plan for 16 boards.
pub const SHEET: usize = 809;

// Reads a sheet and writes the sheet of its plan to the front of the buffer: the same bytes.
pub fn echo(bytes: &[u8], buffer: &mut [u8; SHEET]) -> Result<usize, Fault>
    ensures answer { Answers Layer.Plans Call.Read (read_refusal bytes.now) result (λ k. (k ≡ length bytes.now) × (buffer.new ≡ bytes.now ++ drop k buffer.old)) (buffer.new ≡ buffer.old) }
    ensures bound { IfOk result (λ k. k ≤ 809) }
{
    let plan = Plan::read(bytes)?;
    plan.write(buffer)
}
