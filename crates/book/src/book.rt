// The book, and the calls that plan a turn.
ghost use Rattle.std.specs.Prelude.{◌≡◌, Some, None, MatchResult};
ghost use Rattle.book.specs.Refusals.{state_of, state_refusal, turn_of};
ghost use Rattle.book.specs.Steps.{AdoptStep, DrawStep, SettleStep, Taken};
ghost use Rattle.book.specs.declared.stage.Stage.TheVariants.{Empty};

use crate::fault::BookFault;
use crate::stage::{Stage, Turn};
use drawings::Drawing;
use elements::Element;
use faults::{Call, Cause, Fault, Layer, State};
use layouts::Layout;
use plans::Plan;
use settling::Settlement;
use settling::calls::{adopt, settle};
use tariffs::Tariff;

#[derive(Drop)]
pub struct Book<E> {
    pub(crate) stage: Stage<E>,
}

impl<E: Element> Book<E> {
    // The refusal of a call that the state forbids.
    pub(crate) fn forbids(&self, call: Call) -> BookFault
        ensures { (result.call ≡ call) × (result.fault ≡ state_refusal call self.now.stage) }
    {
        let state = self.state();
        let fault = Fault::new(Layer::Book, call, Cause::State { state });
        BookFault::new(call, fault)
    }

    pub fn state(&self) -> State
        ensures { result ≡ state_of self.now.stage }
    {
        match self.stage {
            Stage::Empty => State::Empty,
            Stage::Drawn(_) => State::Drawn,
            Stage::Settled(_, _) => State::Settled,
        }
    }

    // An empty book.
    pub fn new() -> Book<E>
        ensures { result.stage ≡ Empty }
    {
        Book {
            stage: Stage::Empty,
        }
    }

    // Draws the turn of the source into the target, from any state.
    pub fn draw(
        &mut self,
        letter: char,
        target: &Layout,
        source: &Layout,
        alpha: E,
        source_share: usize,
        target_share: usize,
    ) -> Result<(), BookFault>
        ensures { DrawStep letter target.now source.now alpha source_share target_share self.old.stage result self.new.stage }
    {
        // A `map_err` here would copy the drawing once more.
        match Drawing::new(letter, target, source, source_share, target_share) {
            Ok(drawing) => {
                self.stage = Stage::Drawn(Turn { drawing, alpha });
                Ok(())
            }
            Err(fault) => Err(BookFault::new(Call::Draw, fault)),
        }
    }

    // What is drawn, for a call that needs it.
    pub(crate) fn turn(&self, call: Call) -> Result<&Turn<E>, BookFault>
        ensures { MatchResult result (λ turn. turn_of self.now.stage ≡ Some turn.now) (λ f. (turn_of self.now.stage ≡ None) × (f.call ≡ call) × (f.fault ≡ state_refusal call self.now.stage)) }
    {
        self.stage.turn().ok_or_else(|| self.forbids(call))
    }

    // Takes what the call found for the turn, and stays as it is where that is a fault.
    #[inline(always)]
    fn take(
        &mut self,
        call: Call,
        turn: Turn<E>,
        found: Result<Settlement, Fault>,
    ) -> Result<(), BookFault>
        ensures { Taken call turn found self.old.stage result self.new.stage }
    {
        let settlement = found.map_err(|fault| BookFault::new(call, fault))?;
        self.stage = Stage::Settled(turn, settlement);
        Ok(())
    }

    // Finds a least naming by the tariff, with prices that certify it, and records what each package costs.
    pub fn settle<T: Tariff>(&mut self, tariff: &T) -> Result<(), BookFault>
        ensures { SettleStep E.unit E.width (T.boards tariff.now) (T.cost tariff.now) self.old.stage result self.new.stage }
    {
        let turn = *self.turn(Call::Settle)?;
        let found = settle(&turn.drawing, turn.alpha, tariff);
        self.take(Call::Settle, turn, found)
    }

    // Takes the proposed plan, where its prices certify it, and records what each package costs.
    pub fn adopt<T: Tariff>(&mut self, tariff: &T, plan: &Plan) -> Result<(), BookFault>
        ensures { AdoptStep E.unit E.width (T.boards tariff.now) (T.cost tariff.now) plan.now self.old.stage result self.new.stage }
    {
        let turn = *self.turn(Call::Adopt)?;
        let found = adopt(&turn.drawing, turn.alpha, tariff, plan);
        self.take(Call::Adopt, turn, found)
    }
}
