// How far a turn has come.
use drawings::Drawing;
use settling::Settlement;

// What is drawn: the drawing, and the factor of every element.
#[derive(Clone, Copy)]
pub struct Turn<E> {
    pub drawing: Drawing,
    pub alpha: E,
}

#[derive(Clone, Copy)]
pub enum Stage<E> {
    Empty,
    Drawn(Turn<E>),
    Settled(Turn<E>, Settlement),
}

impl<E> Stage<E> {
    ghost use Rattle.std.specs.Option.{option_map};
    ghost use Rattle.std.specs.Prelude.{◌≡◌};
    ghost use Rattle.book.specs.Refusals.{settlement_of, turn_of};

    // What is drawn, if anything is.
    pub(crate) fn turn(&self) -> Option<&Turn<E>>
        ensures { option_map (λ turn. turn.now) result ≡ turn_of self.now }
    {
        match self {
            Stage::Empty => None,
            Stage::Drawn(turn) | Stage::Settled(turn, _) => Some(turn),
        }
    }

    // What is settled, if anything is.
    pub(crate) fn settlement(&self) -> Option<&Settlement>
        ensures { option_map (λ s. s.now) result ≡ settlement_of self.now }
    {
        match self {
            Stage::Empty | Stage::Drawn(_) => None,
            Stage::Settled(_, settlement) => Some(settlement),
        }
    }
}
