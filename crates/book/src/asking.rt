// Questions to a book.
ghost use Rattle.std.specs.Prelude.{◌≡◌, Some};
ghost use Rattle.book.specs.Asking.{Covered, Planned, Priced, Sized, bytes_refusal, cover_refusal, drawing_of, plan_refusal, price_refusal};
ghost use Rattle.book.specs.Refusals.{Told, settlement_of};
ghost use Rattle.std.specs.Option.{option_map};

use crate::book::Book;
use crate::fault::BookFault;
use drawings::Drawing;
use elements::Element;
use faults::Call;
use plans::Plan;
use settling::Settlement;

impl<E: Element> Book<E> {
    // What is drawn, if anything is.
    pub fn drawing(&self) -> Option<&Drawing>
        ensures { option_map (λ d. d.now) result ≡ drawing_of self.now.stage }
    {
        self.stage.turn().map(|turn| &turn.drawing)
    }

    // What is settled, for a question that needs it.
    fn settled(&self) -> Result<&Settlement, BookFault>
        ensures { Told Call.Ask (plan_refusal self.now.stage) result (λ s. settlement_of self.now.stage ≡ Some s.now) (Unit {0}) }
    {
        self.stage
            .settlement()
            .ok_or_else(|| self.forbids(Call::Ask))
    }

    // The blocks of the target and of the source that cover the cell.
    pub fn cover(&self, cell: usize) -> Result<(usize, usize), BookFault>
        ensures { Told Call.Cover (cover_refusal self.now.stage cell) result (λ v. Covered self.now.stage cell v.0 v.1) (Unit {0}) }
    {
        self.turn(Call::Cover)?
            .drawing
            .cover(cell)
            .map_err(|fault| BookFault::new(Call::Cover, fault))
    }

    // The bytes of the sender's package for the role.
    pub fn package_bytes(&self, sender: usize, role: usize) -> Result<usize, BookFault>
        ensures { Told Call.Ask (bytes_refusal self.now.stage sender role) result (λ v. Sized self.now.stage E.width sender role v) (Unit {0}) }
    {
        self.turn(Call::Ask)?
            .drawing
            .package_bytes(sender, role, E::size() as u8)
            .map_err(|fault| BookFault::new(Call::Ask, fault))
    }

    // The plan that was settled or adopted last.
    pub fn plan(&self) -> Result<Plan, BookFault>
        ensures { Told Call.Ask (plan_refusal self.now.stage) result (λ p. Planned self.now.stage p) (Unit {0}) }
    {
        let settlement = self.settled()?;
        Ok(settlement.plan)
    }

    // The price of the sender's package for the role, as it was when the plan was settled or adopted.
    pub fn package_price(&self, sender: usize, role: usize) -> Result<u64, BookFault>
        ensures { Told Call.Ask (price_refusal self.now.stage sender role) result (λ v. Priced self.now.stage sender role v) (Unit {0}) }
    {
        self.package_bytes(sender, role)?;
        let settlement = self.settled()?;
        Ok(settlement.prices[sender * 16 + role])
    }
}
