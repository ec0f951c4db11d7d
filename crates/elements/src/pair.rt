// The element of two words, a complex number.
use crate::word::Word;

#[derive(Clone, Copy, PartialEq, Eq, Debug)]
pub struct Pair {
    pub real: Word,
    pub imaginary: Word,
}
