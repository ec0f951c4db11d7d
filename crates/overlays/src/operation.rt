// What is done to the source on its way into the target.
ghost use Rattle.overlays.specs.Letters.{Decodes};

use faults::Cause;

#[derive(Clone, Copy, PartialEq, Eq, Debug)]
pub enum Operation {
    Identity,
    Transpose,
    ConjugateTranspose,
}

// The operation that the letter names: N for the identity, T for the transpose, C for the conjugate transpose.
impl TryFrom<char> for Operation {
    type Error = Cause;

    ghost try_from_gives = { Decodes };

    fn try_from(letter: char) -> Result<Operation, Cause> {
        match letter {
            'N' => Ok(Operation::Identity),
            'T' => Ok(Operation::Transpose),
            'C' => Ok(Operation::ConjugateTranspose),
            _ => Err(Cause::Letter {
                code: letter as u32,
            }),
        }
    }
}
