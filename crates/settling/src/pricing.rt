// What the packages of a drawing cost by a tariff.
ghost use Rattle.std.specs.Prelude.{◌≡◌, ℕ, ◌<◌, ◌≤◌, Bool, slice_index};
ghost use Rattle.drawings.specs.Drawings.{package_of};
ghost use Rattle.faults.specs.Answers.{Answers};
ghost use Rattle.faults.specs.Checks.{Checks};
ghost use Rattle.overlays.specs.Packages.{bytes};
ghost use Rattle.settling.specs.Prices.{Marked, asked, count_refusal};
ghost use Rattle.tariffs.specs.Laws.{highest_price};

use crate::packages::Packages;
use drawings::Drawing;
use elements::Element;
use faults::{Call, Cause, Fault, Layer};
use overlays::Operation;
use std::array;
use tariffs::{Question, Tariff};

// A drawing of elements of so many words, and a tariff for its boards.
#[derive(Drop)]
pub(crate) struct Pricing<'a, T: Tariff> {
    pub(crate) drawing: &'a Drawing,
    pub(crate) tariff: &'a T,
    pub(crate) words: u8,
    pub(crate) transformed: bool,
    ghost counted: { T.boards tariff.now ≡ drawing.now.target.boards },
    ghost narrow: { words ≤ 4 },
}

impl<'a, T: Tariff> Pricing<'a, T> {
    // What a call asks for. It is refused where the tariff is for another count of boards.
    pub(crate) fn new<E: Element>(
        call: Call,
        drawing: &'a Drawing,
        alpha: E,
        tariff: &'a T,
    ) -> Result<Pricing<'a, T>, Fault>
        ensures { (t : Bool) × Marked drawing.now.operation (alpha ≡ E.unit) t × Answers Layer.Book call (count_refusal drawing.now (T.boards tariff.now)) result (λ p. (p.drawing.now ≡ drawing.now) × (p.tariff.now ≡ tariff.now) × (p.words ≡ E.width) × (p.transformed ≡ t)) (Unit {0}) }
    {
        let transformed = is_transformed(drawing.operation, alpha);
        check_count(drawing, tariff.board_count()).map_err(|cause| Fault::new(
            Layer::Book,
            call,
            cause,
        ))?;
        Ok(Pricing {
            drawing,
            tariff,
            words: E::size() as u8,
            transformed,
        })
    }

    // The packages of all senders for the role.
    pub(crate) fn packages(&self, role: usize) -> Packages
        requires { role < self.now.drawing.now.target.boards }
        ensures { (i : ℕ) → i < self.now.drawing.now.target.boards → slice_index result.bytes i ≡ bytes (package_of self.now.drawing.now i role) self.now.words }
    {
        // Boards that the drawing does not have send none.
        let bytes = array::from_fn(|sender| {
            self.drawing
                .package_bytes(sender, role, self.words)
                .unwrap_or(0)
        });
        Packages { bytes }
    }

    // What the sender's package costs, which the receiver gets.
    pub(crate) fn price(&self, packages: &Packages, sender: usize, receiver: usize) -> u64
        requires sender_bound { sender < self.now.drawing.now.target.boards }
        requires receiver_bound { receiver < self.now.drawing.now.target.boards }
        ensures value { result ≡ T.cost self.now.tariff.now (asked sender receiver (slice_index packages.now.bytes sender) self.now.transformed) }
        ensures capped { result ≤ highest_price }
    {
        self.tariff
            .price(Question {
                sender,
                receiver,
                bytes: packages.bytes[sender],
                transformed: self.transformed,
            })
            .unwrap()
    }
}

// Whether the packages are transformed on their way.
fn is_transformed<E: Element>(operation: Operation, alpha: E) -> bool
    ensures { Marked operation (alpha ≡ E.unit) result }
{
    match operation {
        Operation::Identity => !alpha.is_one(),
        Operation::Transpose | Operation::ConjugateTranspose => true,
    }
}

// Refuses what is for another count of boards than the drawing.
pub(crate) fn check_count(drawing: &Drawing, number: usize) -> Result<(), Cause>
    ensures { Checks (count_refusal drawing.now number) result (λ _. Unit {0}) }
{
    if number == drawing.target.boards {
        Ok(())
    } else {
        Err(Cause::Count { number })
    }
}
