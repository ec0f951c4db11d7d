// Which of two values the operation takes.
ghost use Rattle.std.specs.Prelude.{◌≡◌};
ghost use Rattle.overlays.specs.Turns.{turned};

use crate::operation::Operation;

impl Operation {
    // The first under the identity, the second under both transposes.
    pub fn turned<T: Copy>(self, straight: T, crossed: T) -> T
        ensures value { result ≡ turned self straight crossed }
    {
        match self {
            Operation::Identity => straight,
            Operation::Transpose => crossed,
            Operation::ConjugateTranspose => crossed,
        }
    }
}
