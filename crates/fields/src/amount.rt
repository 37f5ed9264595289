// Amounts, in cents.
ghost use Rattle.std.specs.Prelude.{◌≡◌};
ghost use Rattle.fields.specs.FieldVerdict.{field_verdict};
ghost use Rattle.fields.specs.Amount.{is_amount, amount_field};

use crate::limits::MOST_AMOUNT;
use crate::read_digits;
use refusals::Reason;

// The cents that an amount of thirteen digits gives. Any other length and any byte that is no digit
// is refused, and then zero: thirteen digits hold no more than the most.
pub fn read_amount(field: &[u8]) -> Result<u64, Reason>
    ensures { field_verdict result ≡ amount_field field.now }
{
    if field.len() != 13 {
        return Err(Reason::NotDigits);
    }
    let cents = read_digits(field)?;
    if is_amount(cents) {
        Ok(cents)
    } else {
        Err(Reason::ZeroAmount)
    }
}

// Whether the cents can be asked for: above zero, and in thirteen digits.
pub fn is_amount(cents: u64) -> bool
    ensures { result ≡ is_amount cents }
{
    0 < cents && cents <= MOST_AMOUNT
}
