// A tariff by distance, written against the trait alone.
ghost use Rattle.std.specs.Prelude.{◌≡◌, ◌≤◌};
ghost use Rattle.faults.specs.Answers.{Answers};
ghost use Rattle.faults.specs.declared.fault.Call.{Call};
ghost use Rattle.faults.specs.declared.fault.Layer.{Layer};
ghost use Rattle.tariffs.specs.Questions.{boards_refusal};
ghost use Rattle.tariffs_tests.specs.Distances.{distance_price, distance_laws};

use faults::Fault;
use tariffs::check::check_boards;
use tariffs::{Question, Tariff};

// What a byte costs for each board on its way.
const RATE: u64 = 4360;

#[derive(Clone, Copy)]
pub struct Distance {
    boards: usize,
    ghost least: { 1 ≤ boards },
    ghost most: { boards ≤ 16 },
}

impl Distance {
    pub(crate) fn new(boards: usize) -> Result<Distance, Fault>
        ensures answer { Answers Layer.Tariffs Call.Make (boards_refusal boards) result (λ t. t.boards ≡ boards) (Unit {0}) }
    {
        check_boards(boards)?;
        Ok(Distance { boards })
    }
}

impl Tariff for Distance {
    ghost boards = { λ t. t.boards };

    ghost cost = { λ _. distance_price };

    ghost laws = { λ t. distance_laws t.boards t.least t.most };

    fn board_count(&self) -> usize {
        self.boards
    }

    fn price(&self, question: Question) -> Result<u64, Fault> {
        question.check(self.boards)?;
        let distance = question.sender.abs_diff(question.receiver);
        Ok(RATE * distance as u64 * question.bytes as u64)
    }
}
