// The word as an element: arithmetic modulo 4,294,967,296.
ghost use Rattle.elements.specs.Words.{word_one, word_product, word_words, word_back};
ghost use Rattle.std.proofs.Common.{arith, rules};
ghost use Rattle.elements.specs.Equal.{word_equal};

use crate::element::{Element, MOST_WORDS};
use crate::word::Word;

impl Element for Word {
    const WORDS: usize = 1;

    const ONE: Word = Word { value: 1 };

    ghost width = { 1 };

    ghost unit = { word_one };

    ghost product = { word_product };

    ghost conjugate = { λ a. a };

    ghost words = { word_words };

    ghost back = { word_back };

    ghost least = { Prim.search rules };

    ghost most = { Prim.search rules };

    ghost sized = { Prim.search rules };

    ghost kept = { λ x. word_equal (word_back (word_words x)) x (omega (arith, x.fits)) };

    ghost twice = { Prim.search rules };

    ghost neutral = { λ x. word_equal (word_product word_one x) x (omega (arith, x.fits)) };

    fn size() -> usize {
        Self::WORDS
    }

    fn identity() -> Word {
        Self::ONE
    }

    fn times(self, other: Word) -> Word {
        Word {
            value: self.value.wrapping_mul(other.value),
        }
    }

    fn conjugated(self) -> Word {
        self
    }

    fn is_one(self) -> bool {
        self == Self::ONE
    }

    fn to_words(self) -> [u32; MOST_WORDS] {
        [self.value, 0, 0, 0]
    }

    fn from_words(from: [u32; MOST_WORDS]) -> Word {
        let [value, ..] = from;
        Word { value }
    }
}
