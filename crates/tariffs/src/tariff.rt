// What moving a package costs.
ghost use Rattle.std.specs.Prelude.{◌≡◌, ℕ};
ghost use Rattle.faults.specs.Answers.{Answers};
ghost use Rattle.faults.specs.declared.fault.Call.{Call};
ghost use Rattle.faults.specs.declared.fault.Layer.{Layer};
ghost use Rattle.tariffs.specs.Laws.{Laws};
ghost use Rattle.tariffs.specs.Questions.{ask_refusal};
ghost use Rattle.tariffs.specs.declared.question.Question.{Question};

use crate::question::Question;
use faults::Fault;

pub trait Tariff {
    // The count of boards.
    ghost boards: { Self → ℕ };

    // The price of what is asked.
    ghost cost: { Self → Question → ℕ };

    // The laws of tariffs hold of the two.
    ghost laws: { (t : Self) → Laws (boards t) (cost t) };

    fn board_count(&self) -> usize
        ensures value { result ≡ boards self.now };

    fn price(&self, question: Question) -> Result<u64, Fault>
        ensures answer { Answers Layer.Tariffs Call.Ask (ask_refusal (boards self.now) question) result (λ p. p ≡ cost self.now question) (Unit {0}) };
}
