// The pair as an element: complex numbers over arithmetic modulo 4,294,967,296.
ghost use Rattle.std.specs.Prelude.{◌≡◌, true};
ghost use Rattle.elements.specs.Pairs.{ComplexSamples, pair_one, pair_product, pair_conjugate, pair_words, pair_back};
ghost use Rattle.std.proofs.Common.{arith, rules};
ghost use Rattle.elements.specs.Equal.{pair_equal};

use crate::element::{Element, MOST_WORDS};
use crate::pair::Pair;
use crate::word::Word;

impl Element for Pair {
    const WORDS: usize = 2;

    const ONE: Pair = Pair {
        real: Word { value: 1 },
        imaginary: Word { value: 0 },
    };

    ghost width = { 2 };

    ghost unit = { pair_one };

    ghost product = { pair_product };

    ghost conjugate = { pair_conjugate };

    ghost words = { pair_words };

    ghost back = { pair_back };

    ghost least = { Prim.search rules };

    ghost most = { Prim.search rules };

    ghost sized = { Prim.search rules };

    ghost kept = { λ x. pair_equal (pair_back (pair_words x)) x (omega (arith, x.real.fits)) (omega (arith, x.imaginary.fits)) };

    ghost twice = { λ x. pair_equal (pair_conjugate (pair_conjugate x)) x (omega (arith, x.real.fits)) (omega (arith, x.imaginary.fits)) };

    ghost neutral = { λ x. pair_equal (pair_product pair_one x) x (omega (arith, x.real.fits)) (omega (arith, x.imaginary.fits)) };

    fn size() -> usize {
        Self::WORDS
    }

    fn identity() -> Pair {
        Self::ONE
    }

    // In wrapping calls: operators of words would be three more implementations for this one formula.
    fn times(self, other: Pair) -> Pair {
        let (x, y) = (self.real.value, self.imaginary.value);
        let (u, v) = (other.real.value, other.imaginary.value);
        Pair {
            real: Word {
                value: x.wrapping_mul(u).wrapping_sub(y.wrapping_mul(v)),
            },
            imaginary: Word {
                value: x.wrapping_mul(v).wrapping_add(y.wrapping_mul(u)),
            },
        }
    }

    fn conjugated(self) -> Pair {
        Pair {
            real: self.real,
            imaginary: Word {
                value: self.imaginary.value.wrapping_neg(),
            },
        }
    }

    fn is_one(self) -> bool {
        self == Self::ONE
    }

    fn to_words(self) -> [u32; MOST_WORDS] {
        [self.real.value, self.imaginary.value, 0, 0]
    }

    fn from_words(from: [u32; MOST_WORDS]) -> Pair {
        let [real, imaginary, ..] = from;
        Pair {
            real: Word { value: real },
            imaginary: Word { value: imaginary },
        }
    }
}

// Names two worked examples of the definitions. It answers true.
pub fn complex_samples_stand() -> bool
    ensures samples { ComplexSamples }
    ensures value { result ≡ true }
{
    true
}
