// The numbers of a text, which fit their bits.
ghost use Rattle.std.specs.Prelude.{◌≡◌, ℕ, ◌^◌, ◌<◌, ◌≤◌, true, false, MatchOption, ◌≢◌, slice_index};
ghost use Rattle.std.proofs.Common.{lit≤};
ghost use Rattle.job_words.specs.Numerals.{Reads};

// The kinds of numbers that a text may have.
pub trait Number {
    const BITS: u32;

    // How many bits a number of the kind has.
    ghost bits: { ℕ };

    // The number itself.
    ghost number: { Self → ℕ };

    // A kind has at most 64 bits.
    ghost most: { bits ≤ 64 };

    fn fitting(value: u64) -> Option<Self>
        ensures cases { MatchOption result (2 ^ bits ≤ value) (λ n. (value < 2 ^ bits) × (number n ≡ value)) };
}

// One implementation for each type: what `fitting` answers is the library's for that type, and no word of the
// language writes them for all four.
impl Number for u8 {
    ghost bits = { 8 };

    ghost number = { λ n. n };

    ghost most = { lit≤ tt };

    const BITS: u32 = 8;

    fn fitting(value: u64) -> Option<u8> {
        u8::try_from(value).ok()
    }
}

impl Number for u16 {
    ghost bits = { 16 };

    ghost number = { λ n. n };

    ghost most = { lit≤ tt };

    const BITS: u32 = 16;

    fn fitting(value: u64) -> Option<u16> {
        u16::try_from(value).ok()
    }
}

impl Number for u32 {
    ghost bits = { 32 };

    ghost number = { λ n. n };

    ghost most = { lit≤ tt };

    const BITS: u32 = 32;

    fn fitting(value: u64) -> Option<u32> {
        u32::try_from(value).ok()
    }
}

impl Number for usize {
    ghost bits = { 64 };

    ghost number = { λ n. n };

    ghost most = { lit≤ tt };

    const BITS: u32 = 64;

    fn fitting(value: u64) -> Option<usize> {
        Some(value as usize)
    }
}

// Whether a plus stands in front, which `parse` takes for a sign.
fn is_signed(word: &[u8]) -> bool
    ensures signed { result ≡ true → slice_index word.now 0 ≡ 43 }
    ensures plain { result ≡ false → slice_index word.now 0 ≢ 43 }
{
    word.first() == Some(&b'+')
}

// The number of 64 bits that a word of decimal digits writes.
fn value(word: &str) -> Option<u64>
    ensures cases { Reads 64 (λ n. n) word.now result }
{
    if is_signed(word.as_bytes()) {
        return None;
    }
    word.parse::<u64>().ok()
}

// The number that a word of decimal digits writes, where it fits its bits.
pub fn read_number<N: Number>(word: &str) -> Option<N>
    ensures cases { Reads N.bits N.number word.now result }
{
    N::fitting(value(word)?)
}
