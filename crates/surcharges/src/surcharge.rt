// A tariff over another: what a transformed package costs beyond the other's price.
ghost use Rattle.std.specs.Prelude.{◌≡◌};
ghost use Rattle.surcharges.specs.SurchargeLaws.{surcharge_laws};
ghost use Rattle.surcharges.specs.Surcharges.{surcharge_price};

use crate::charges::Charges;
use faults::Fault;
use tariffs::limits::MOST_PRICE;
use tariffs::{Question, Tariff};

#[derive(Clone, Copy)]
pub struct Surcharge<T> {
    inner: T,
    charges: Charges,
}

impl<T> Surcharge<T> {
    pub fn new(inner: T, charges: Charges) -> Surcharge<T>
        ensures below { result.inner ≡ inner }
        ensures charged { result.charges ≡ charges }
    {
        Surcharge { inner, charges }
    }
}

impl<T: Tariff> Tariff for Surcharge<T> {
    ghost boards = { λ s. T.Tariff.boards s.inner };

    ghost cost = { λ s. surcharge_price s.charges.table (T.Tariff.cost s.inner) };

    ghost laws = { λ s. surcharge_laws (T.Tariff.boards s.inner) s.charges.table (T.Tariff.cost s.inner) (T.Tariff.laws s.inner) };

    fn board_count(&self) -> usize {
        self.inner.board_count()
    }

    fn price(&self, question: Question) -> Result<u64, Fault> {
        let price = self.inner.price(question)?;
        if !question.transformed {
            return Ok(price);
        }
        let charge = self.charges.table[question.receiver] as u64;
        Ok(MOST_PRICE.min(price + charge * question.bytes as u64))
    }
}
