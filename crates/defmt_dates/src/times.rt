//! Dates with their time of day.

ghost use Rattle.std.specs.Prelude.{◌≡◌, ◌<◌, ◌≤◌, length};
ghost use Rattle.defmt_dates.specs.Texts.{day_text, time_text, early_text, date_time, date_of_seconds, date_of_millis};

use crate::bytes::{TimeText, digit, divided, put, put_decimal, put_fraction, thousandths};
use crate::calendar::{Date, date_after};

const MINUTE: u64 = 60;

const HOUR: u64 = 60 * MINUTE;

pub(crate) const DAY: u64 = 24 * HOUR;

// The seconds from 1970 to the year 10000.
const SECONDS_TO_10000: u128 = 253_402_300_800;

// A day of the calendar.
fn day_bytes(date: Date) -> [u8; 10]
    ensures { result ≡ day_text date.year date.month date.day }
{
    let Date { year, month, day } = date;
    [
        digit(year / 1_000),
        digit(year / 100),
        digit(year / 10),
        digit(year),
        b'-',
        digit(month / 10),
        digit(month),
        b'-',
        digit(day / 10),
        digit(day),
    ]
}

// The hours, minutes and seconds of a day.
pub(crate) fn time_bytes(seconds: u64) -> [u8; 8]
    ensures { result ≡ time_text seconds }
{
    let hours = seconds / HOUR;
    let minutes = seconds % HOUR / MINUTE;
    let rest = seconds % MINUTE;
    [
        digit(hours / 10),
        digit(hours),
        b':',
        digit(minutes / 10),
        digit(minutes),
        b':',
        digit(rest / 10),
        digit(rest),
    ]
}

// Date and time of these seconds below the year 10000, with a fraction behind them.
fn early(seconds: u64, fraction: &[u8]) -> TimeText
    requires early { seconds < 253402300800 }
    requires short { length fraction.now ≤ 4 }
    ensures { result.items ≡ early_text seconds fraction.now }
{
    let mut text = TimeText::new();
    put(&mut text, &day_bytes(date_after(seconds / DAY)));
    put(&mut text, b"T");
    put(&mut text, &time_bytes(seconds % DAY));
    put_fraction(&mut text, fraction);
    put(&mut text, b"Z");
    text
}

// Date and time of these seconds, with a fraction behind them, or the number in decimal.
fn date_time(seconds: u128, fraction: &[u8], number: u128) -> TimeText
    requires { length fraction.now ≤ 4 }
    ensures { result.items ≡ date_time seconds fraction.now number }
{
    if seconds < SECONDS_TO_10000 {
        return early(seconds as u64, fraction);
    }
    let mut text = TimeText::new();
    put_decimal(&mut text, number);
    text
}

/// Date and time of a number of seconds, as `2026-11-30T12:00:00Z`. From the year 10000 on it is the number in decimal.
pub fn date_of_seconds(seconds: u128) -> TimeText
    ensures { result.items ≡ date_of_seconds seconds }
{
    date_time(seconds, b"", seconds)
}

/// Date and time of a number of milliseconds, as `2026-11-30T12:00:00.250Z`. From the year 10000 on it is the number in decimal.
pub fn date_of_millis(millis: u128) -> TimeText
    ensures { result.items ≡ date_of_millis millis }
{
    let (seconds, parts) = divided(millis, 1_000);
    date_time(seconds, &thousandths(parts), millis)
}
