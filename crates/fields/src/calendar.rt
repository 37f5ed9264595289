// The Gregorian calendar.
ghost use Rattle.std.specs.Prelude.{◌≡◌};
ghost use Rattle.fields.specs.Calendar.{is_leap, days_in, is_day};

// A day as a date names it: the month from 1, for January, and the year in full.
#[derive(Clone, Copy, Debug, PartialEq, Eq)]
pub struct Day {
    pub day: u64,
    pub month: u64,
    pub year: u64,
}

impl Day {
    // Whether its month has it in its year.
    pub(crate) fn is_real(self) -> bool
        ensures { result ≡ is_day self.day self.month self.year }
    {
        0 < self.day && self.day <= days_in(self.month, self.year)
    }
}

// The days of the months of a common year, January first. They are bytes since a constant array is
// made anew where it is read: as bytes in two stores, as 64-bit numbers in twelve.
const COMMON_YEAR: [u8; 12] = [31, 28, 31, 30, 31, 30, 31, 31, 30, 31, 30, 31];

// The number of days of a month, 1 for January: 0 where there is no such month.
fn days_in(month: u64, year: u64) -> u64
    ensures { result ≡ days_in month year }
{
    if month == 0 || 12 < month {
        return 0;
    }
    let days = u64::from(COMMON_YEAR[(month - 1) as usize]);
    if month == 2 && leap(year) {
        return days + 1;
    }
    days
}

// Whether the year has a 29 February: every 4th has, but of every 100th only every 400th.
fn leap(year: u64) -> bool
    ensures { result ≡ is_leap year }
{
    year % 400 == 0 || year % 4 == 0 && year % 100 != 0
}
