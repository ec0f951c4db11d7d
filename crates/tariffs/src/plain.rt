// The plain tariff: a package costs its bytes, and nothing between a board and itself.
ghost use Rattle.std.specs.Prelude.{◌≡◌, ◌≤◌};
ghost use Rattle.faults.specs.Answers.{Answers};
ghost use Rattle.faults.specs.declared.fault.Call.{Call};
ghost use Rattle.faults.specs.declared.fault.Layer.{Layer};
ghost use Rattle.tariffs.specs.Plains.{plain_price};
ghost use Rattle.tariffs.specs.PlainLaws.{plain_laws};
ghost use Rattle.tariffs.specs.Questions.{boards_refusal};

use crate::check::check_boards;
use crate::question::Question;
use crate::tariff::Tariff;
use faults::Fault;

#[derive(Clone, Copy, Debug)]
pub struct Plain {
    boards: usize,
    ghost least: { 1 ≤ boards },
    ghost most: { boards ≤ 16 },
}

impl Plain {
    pub fn new(boards: usize) -> Result<Plain, Fault>
        ensures answer { Answers Layer.Tariffs Call.Make (boards_refusal boards) result (λ t. t.boards ≡ boards) (Unit {0}) }
    {
        check_boards(boards)?;
        Ok(Plain { boards })
    }
}

impl Tariff for Plain {
    ghost boards = { λ t. t.boards };

    ghost cost = { λ _. plain_price };

    ghost laws = { λ t. plain_laws t.boards t.least t.most };

    fn board_count(&self) -> usize {
        self.boards
    }

    fn price(&self, question: Question) -> Result<u64, Fault> {
        question.check(self.boards)?;
        if question.sender == question.receiver {
            Ok(0)
        } else {
            Ok(question.bytes as u64)
        }
    }
}
