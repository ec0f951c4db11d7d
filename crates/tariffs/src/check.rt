// The checks that every tariff shares, each with its refusal.
ghost use Rattle.std.specs.Prelude.{◌≡◌};
ghost use Rattle.faults.specs.Answers.{Answers};
ghost use Rattle.faults.specs.Checks.{Checks};
ghost use Rattle.faults.specs.declared.fault.Call.{Call};
ghost use Rattle.faults.specs.declared.fault.Layer.{Layer};
ghost use Rattle.tariffs.specs.Questions.{ask_refusal, boards_refusal};

use crate::limits::{MOST_BOARDS, MOST_BYTES};
use crate::question::Question;
use faults::{Call, Cause, Fault, Layer};

impl Question {
    // Refuses what no tariff for `boards` boards answers.
    pub fn check(self, boards: usize) -> Result<(), Fault>
        ensures answer { Answers Layer.Tariffs Call.Ask (ask_refusal boards self) result (λ _. Unit {0}) (Unit {0}) }
    {
        self.legal(boards)
            .map_err(|cause| Fault::new(Layer::Tariffs, Call::Ask, cause))
    }

    fn legal(self, boards: usize) -> Result<(), Cause>
        ensures { Checks (ask_refusal boards self) result (λ _. Unit {0}) }
    {
        if self.sender >= boards {
            return Err(Cause::Board {
                number: self.sender,
            });
        }
        if self.receiver >= boards {
            return Err(Cause::Board {
                number: self.receiver,
            });
        }
        if self.bytes > MOST_BYTES {
            return Err(Cause::Beyond { index: 0 });
        }
        Ok(())
    }
}

// Refuses a count of boards outside its limits. It stays beside `check_count` of the links: neither crate uses the other, and one
// function for both would take the refusal and its layer, and be no shorter at its calls.
pub fn check_boards(boards: usize) -> Result<(), Fault>
    ensures answer { Answers Layer.Tariffs Call.Make (boards_refusal boards) result (λ _. Unit {0}) (Unit {0}) }
{
    if boards < 1 || boards > MOST_BOARDS {
        return Err(Fault::new(Layer::Tariffs, Call::Make, Cause::Board { number: boards }));
    }
    Ok(())
}
