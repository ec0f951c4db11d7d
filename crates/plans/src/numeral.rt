// The text of a number, right-justified in the 20 columns of a sheet's widest field.
ghost use Rattle.std.specs.Prelude.{◌≡◌};
ghost use Rattle.sheets.specs.Text.{text};

use itoa::Buffer;

pub(crate) fn numeral(z: i64) -> [u8; 20]
    ensures { result ≡ text 20 z }
{
    let mut buffer = Buffer::new();
    let digits = buffer.format(z).as_bytes();
    let mut columns = [b' '; 20];
    columns[20 - digits.len()..].copy_from_slice(digits);
    columns
}
