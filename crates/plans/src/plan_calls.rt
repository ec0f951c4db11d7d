// Making plans and asking them.
ghost use Rattle.std.specs.Prelude.{◌≡◌, ◌<◌};
ghost use Rattle.faults.specs.Answers.{Answers};
ghost use Rattle.faults.specs.Checks.{Checks};
ghost use Rattle.faults.specs.declared.fault.Call.{Call};
ghost use Rattle.faults.specs.declared.fault.Layer.{Layer};
ghost use Rattle.plans.specs.Plans.{Blank, WithLine, line_of, line_refusal};

use crate::plan::Plan;
use faults::{Call, Cause, Fault, Layer};
use sheets::Line;
use sheets::limits::BOARDS;

impl Plan {
    // A plan for any count of boards, its lines blank: whether the count is one of a cabinet is asked
    // where the plan is used.
    pub fn new(boards: usize, bill: u64) -> Plan
        ensures { Blank boards bill result }
    {
        let lines = [Line::default(); BOARDS];
        Plan {
            boards,
            bill,
            lines,
        }
    }

    pub fn boards(&self) -> usize
        ensures { result ≡ self.now.boards }
    {
        self.boards
    }

    pub fn bill(&self) -> u64
        ensures { result ≡ self.now.bill }
    {
        self.bill
    }

    // The line of number `x`.
    pub fn line(&self, x: usize) -> Result<Line, Fault>
        ensures { Answers Layer.Plans Call.Ask (line_refusal self.now x) result (λ l. l ≡ line_of self.now x) (Unit {0}) }
    {
        self.check(x)
            .map_err(|cause| Fault::new(Layer::Plans, Call::Ask, cause))?;
        Ok(self.lines[x])
    }

    // Replaces the line of number `x`.
    pub fn set_line(&mut self, x: usize, line: Line) -> Result<(), Fault>
        ensures { Answers Layer.Plans Call.Make (line_refusal self.old x) result (λ _. WithLine self.old x line self.new) (self.new ≡ self.old) }
    {
        self.check(x)
            .map_err(|cause| Fault::new(Layer::Plans, Call::Make, cause))?;
        self.lines[x] = line;
        Ok(())
    }

    // Whether the plan has a line of number `x`.
    fn check(&self, x: usize) -> Result<(), Cause>
        ensures { Checks (line_refusal self.now x) result (λ _. (x < self.now.boards) × (x < 16)) }
    {
        if x < self.boards && x < BOARDS {
            Ok(())
        } else {
            Err(Cause::Board { number: x })
        }
    }
}
