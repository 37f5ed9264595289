// Digit fields: a number read from decimal digits, and written as them.
ghost use Rattle.std.specs.Prelude.{◌≡◌, length};
ghost use Rattle.fields.specs.FieldVerdict.{field_verdict};
ghost use Rattle.fields.specs.Digits.{digit_field};
ghost use Rattle.fields.specs.Digits.{digits as Digits-digits};

use crate::limits::MOST_DIGITS;
use refusals::Reason;

// The number that a field of 1 to 15 digits gives. Any other length and any byte that is no digit
// is refused.
pub fn read_digits(field: &[u8]) -> Result<u64, Reason>
    ensures { field_verdict result ≡ digit_field field.now }
{
    if field.len() == 0 || MOST_DIGITS < field.len() {
        return Err(Reason::NotDigits);
    }
    let mut value: u64 = 0;
    for &b in field {
        if b < b'0' || b'9' < b {
            return Err(Reason::NotDigits);
        }
        value = value * 10 + (u64::from(b) - 48);
    }
    Ok(value)
}

// Fills out with the decimal digits of value, zeros in front. Where value has more digits than out
// has bytes, the low ones are written.
pub fn write_digits(out: &mut [u8], value: u64)
    ensures { out.new ≡ Digits-digits (length out.old) value }
{
    let mut rest = value;
    for i in (0..out.len()).rev() {
        out[i] = b'0' + (rest % 10) as u8;
        rest /= 10;
    }
}
