// What ties plans to their sheets.
ghost use Rattle.std.specs.Prelude.{◌≡◌, true, length};
ghost use Rattle.faults.specs.Answers.{Answers};
ghost use Rattle.faults.specs.declared.fault.Call.{Call};
ghost use Rattle.faults.specs.declared.fault.Layer.{Layer};
ghost use Rattle.plans.specs.Laws.{SheetsReadBack, SheetsAreOne};
ghost use Rattle.plans.specs.Sheet.{sheet_length, write_refusal, Written};
ghost use Rattle.sheets.specs.Text.{ReadsExactly};

use crate::plan::Plan;
use faults::Fault;

// Names the laws: a field is read as a number exactly if it is that number's text, the sheet of a legal
// plan is read, and a text is the sheet of one plan at most. It answers true.
pub fn sheets_stand() -> bool
    ensures value { result ≡ true }
    ensures numbers { ReadsExactly }
    ensures back { SheetsReadBack }
    ensures one { SheetsAreOne }
{
    true
}

impl Plan {
    // Writes the plan's sheet to the front of the buffer and reads it again: the plan itself.
    pub fn read_back(&self, buffer: &mut [u8]) -> Result<Plan, Fault>
        ensures { Answers Layer.Plans Call.Write (write_refusal self.now (length buffer.old)) result (λ q. (q ≡ self.now) × Written self.now buffer.old (sheet_length self.now.boards) buffer.new) (buffer.new ≡ buffer.old) }
    {
        let len = self.write(buffer)?;
        Plan::read(&buffer[0..len])
    }
}
