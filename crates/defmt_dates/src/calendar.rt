//! The date of a day.

ghost use Rattle.std.specs.Prelude.{◌≡◌, ◌+◌, ◌-◌, ◌*◌, ◌/◌, ◌<◌, ◌≤◌, slice_index};
ghost use Rattle.defmt_dates.specs.Calendar.{is_leap, month_days, month_after, date_after};
ghost use Rattle.defmt_dates.specs.Years.{days_of_years};

// A day of the calendar.
#[derive(Clone, Copy)]
pub(crate) struct Date {
    pub(crate) year: u64,
    pub(crate) month: u64,
    pub(crate) day: u64,
}

// The days from 0001-01-01 to 1970-01-01.
const DAYS_TO_1970: u64 = 719_162;

// The days of 400 years, after which the calendar begins anew.
const CYCLE_DAYS: u64 = 146_097;

static COMMON_MONTHS: [u64; 12] = [31, 28, 31, 30, 31, 30, 31, 31, 30, 31, 30, 31];

static LEAP_MONTHS: [u64; 12] = [31, 29, 31, 30, 31, 30, 31, 31, 30, 31, 30, 31];

// The days of so many years from the year 1 on.
fn days_of_years(years: u64) -> u64
    requires { years < 10001 }
    ensures { result ≡ days_of_years years }
{
    years * 365 + years / 4 + years / 400 - years / 100
}

// How many whole years, from the year 1 on, these days have.
fn whole_years(days: u64) -> u64
    requires { days < 3652059 }
    ensures { (days_of_years result ≤ days) × (days < days_of_years (result + 1))
        × (result < 9999) }
{
    let years = days * 400 / CYCLE_DAYS;
    if days_of_years(years + 1) <= days {
        years + 1
    } else {
        years
    }
}

fn is_leap(year: u64) -> bool
    ensures { result ≡ is_leap year }
{
    year % 4 == 0 && (year % 100 != 0 || year % 400 == 0)
}

fn month_length(leap: bool, month: usize) -> u64
    requires { month < 12 }
    ensures { result ≡ slice_index (month_days leap) month }
{
    if leap {
        LEAP_MONTHS[month]
    } else {
        COMMON_MONTHS[month]
    }
}

// The month of a day of a year, and the day in it.
fn month_of(leap: bool, days: u64) -> (u64, u64)
    requires { days < 1000 }
    ensures { (result.0 ≡ (month_after (month_days leap) 1 days).number)
        × (result.1 ≡ (month_after (month_days leap) 1 days).over + 1) }
{
    let mut rest = days;
    for month in 0..12 {
        let length = month_length(leap, month);
        if rest < length {
            return (month as u64 + 1, rest + 1);
        }
        rest -= length;
    }
    (13, rest + 1)
}

// The date so many days behind 1970-01-01, below the year 10000.
pub(crate) fn date_after(days: u64) -> Date
    requires { days < 2932897 }
    ensures date { (result.year ≡ (date_after days).year) × (result.month ≡ (date_after days).month)
        × (result.day ≡ (date_after days).day) }
    ensures early { result.year < 10000 }
{
    let all = DAYS_TO_1970 + days;
    let years = whole_years(all);
    let year = years + 1;
    let (month, day) = month_of(is_leap(year), all - days_of_years(years));
    Date { year, month, day }
}
