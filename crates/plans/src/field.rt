// Reading a number field: the number that its digits spell is taken if the field is the text of that number.
ghost use Rattle.std.specs.Prelude.{◌≡◌, ◌^◌, ◌≤◌, length, ℤ, ◌≤ℤ◌, MatchOption, unsigned_abs};
ghost use Rattle.std.specs.Fmt.{signed_decimal};
ghost use Rattle.sheets.specs.Text.{spelled, meant, reads};

use crate::numeral::numeral;

// The loop stays: that a `fold` of the digits does not overflow was tried and did not close.
fn magnitude(field: &[u8]) -> u128
    requires { length field.now ≤ 20 }
    ensures { result ≡ spelled 0 field.now }
{
    let mut sum: u128 = 0;
    for b in field {
        if b.is_ascii_digit() {
            sum = 10 * sum + (*b - b'0') as u128;
        }
    }
    sum
}

// The number that the signs and digits of a field spell, unless it is beyond every limit.
fn value(field: &[u8]) -> Option<i64>
    requires { length field.now ≤ 20 }
    ensures { MatchOption result (2 ^ 63 ≤ spelled 0 field.now) (λ z. z ≡ meant field.now) }
{
    let number = i64::try_from(magnitude(field)).ok()?;
    if field.contains(&b'-') {
        Some(-number)
    } else {
        Some(number)
    }
}

// The number from `low` to `high` whose text the field is, if there is one.
pub(crate) fn number(field: &[u8], low: i64, high: i64) -> Option<i64>
    requires width { length field.now ≤ 20 }
    requires limits { (unsigned_abs low ≤ 2 ^ 62) × (unsigned_abs high ≤ 2 ^ 62) }
    requires room { (z : ℤ) → low ≤ℤ z → z ≤ℤ high → length (signed_decimal z) ≤ length field.now }
    ensures { result ≡ reads (length field.now) low high field.now }
{
    let z = value(field)?;
    if z < low || high < z {
        return None;
    }
    let columns = numeral(z);
    let text = &columns[20 - field.len()..20];
    if field == text { Some(z) } else { None }
}
