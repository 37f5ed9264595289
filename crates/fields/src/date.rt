// Dates: GGMMAA, of the years 2000 to 2099.
ghost use Rattle.std.specs.Prelude.{◌≡◌};
ghost use Rattle.fields.specs.FieldVerdict.{field_verdict};
ghost use Rattle.fields.specs.Date.{date_field};

use crate::calendar::Day;
use crate::read_digits;
use refusals::Reason;

// The day of the calendar that six digits give: day, month and the year's last two digits. What is
// not six digits is refused, and then what is no day of the calendar.
pub fn read_date(field: &[u8]) -> Result<Day, Reason>
    ensures { field_verdict result ≡ date_field field.now }
{
    if field.len() != 6 {
        return Err(Reason::NotDigits);
    }
    let n = read_digits(field)?;
    let day = Day {
        day: n / 10000,
        month: n / 100 % 100,
        year: 2000 + n % 100,
    };
    if day.is_real() {
        Ok(day)
    } else {
        Err(Reason::NoSuchDay)
    }
}
