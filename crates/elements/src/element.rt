// What a matrix holds.
ghost use Rattle.std.specs.Prelude.{◌≡◌, ℕ, ◌-◌, ◌≤◌, List, ◌++◌, length, take, replicate, Decides};

// The words of the widest element: the size of the arrays, which cannot be computed from the constant of a kind.
pub const MOST_WORDS: usize = 4;

pub trait Element: Copy {
    // The number of words of an element.
    const WORDS: usize;

    // The element that leaves others as they are under the product.
    const ONE: Self;

    // The number of words of an element.
    ghost width: { ℕ };

    // The one.
    ghost unit: { Self };

    // The product of two elements.
    ghost product: { Self → Self → Self };

    // The conjugate of an element.
    ghost conjugate: { Self → Self };

    // The words of an element.
    ghost words: { Self → List ℕ };

    // The element of some words.
    ghost back: { List ℕ → Self };

    fn size() -> usize
        ensures value { result ≡ width };

    fn identity() -> Self
        ensures value { result ≡ unit };

    fn times(self, other: Self) -> Self
        ensures value { result ≡ product self other };

    fn conjugated(self) -> Self
        ensures value { result ≡ conjugate self };

    fn is_one(self) -> bool
        ensures value { Decides result (self ≡ unit) };

    // The words, and zeros after them.
    fn to_words(self) -> [u32; MOST_WORDS]
        ensures value { result ≡ words self ++ replicate (4 - width) 0 };

    // The element of the first words.
    fn from_words(from: [u32; MOST_WORDS]) -> Self
        ensures value { result ≡ back (take width from) };

    ghost least: { 1 ≤ width };

    ghost most: { width ≤ 4 };

    ghost sized: { (x : Self) → length (words x) ≡ width };

    ghost kept: { (x : Self) → back (words x) ≡ x };

    ghost twice: { (x : Self) → conjugate (conjugate x) ≡ x };

    ghost neutral: { (x : Self) → product unit x ≡ x };
}
