// The fields of a sheet, by the place of their first byte: the definitions name fields by it, which a cursor would hide.
ghost use Rattle.std.specs.Prelude.{◌≡◌, ◌^◌, ◌<◌, ◌≤◌, [], ◌∷◌, length, ℤ, pos, ◌≤ℤ◌, IfSome, Some, None, unsigned_abs};
ghost use Rattle.std.specs.Option.{option_map};
ghost use Rattle.std.specs.Fmt.{signed_decimal};
ghost use Rattle.std.specs.Str.{bytes_eq};
ghost use Rattle.sheets.specs.Sheet.{part};
ghost use Rattle.sheets.specs.Text.{reads, text, Reads};

use crate::field::number;

// The number from `low` to `high` in the field of `width` bytes at `at`, if there is one.
fn field(bytes: &[u8], at: usize, width: usize, low: i64, high: i64) -> Option<i64>
    requires place { (at < 2 ^ 32) × (1 ≤ width) × (width ≤ 20) }
    requires limits { (unsigned_abs low ≤ 2 ^ 62) × (unsigned_abs high ≤ 2 ^ 62) }
    requires room { (z : ℤ) → low ≤ℤ z → z ≤ℤ high → length (signed_decimal z) ≤ width }
    ensures value { result ≡ reads width low high (part bytes.now at width) }
    ensures found { IfSome result (λ z. Reads width low high (part bytes.now at width) z) }
{
    number(bytes.get(at..at + width)?, low, high)
}

// The number from `low` to `high` in the four columns at `at`, if there is one.
// It and `wide` are one `field`: they differ in the number's type, and each shows once that its numbers fit.
pub(crate) fn small(bytes: &[u8], at: usize, low: usize, high: usize) -> Option<usize>
    requires { (at < 2 ^ 32) × (low ≤ 999) × (high ≤ 999) }
    ensures value { option_map pos result ≡ reads 4 (pos low) (pos high) (part bytes.now at 4) }
    ensures found { IfSome result (λ n. (low ≤ n) × (n ≤ high) × (part bytes.now at 4 ≡ text 4 (pos n))) }
{
    let n = field(bytes, at, 4, low as i64, high as i64)?;
    Some(n as usize)
}

// The number from `low` to `high` in the twenty columns at `at`, if there is one.
pub(crate) fn wide(bytes: &[u8], at: usize, low: i64, high: i64) -> Option<i64>
    requires { (at < 2 ^ 32) × (unsigned_abs low ≤ 2 ^ 62) × (unsigned_abs high ≤ 2 ^ 62) }
    ensures value { result ≡ reads 20 low high (part bytes.now at 20) }
    ensures found { IfSome result (λ z. Reads 20 low high (part bytes.now at 20) z) }
{
    field(bytes, at, 20, low, high)
}

// Whether a line ends at `at`.
pub(crate) fn line_ends(bytes: &[u8], at: usize) -> bool
    ensures { result ≡ bytes_eq (10 ∷ []) (part bytes.now at 1) }
{
    bytes.get(at) == Some(&b'\n')
}
