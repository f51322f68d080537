//! Clocks.

ghost use Rattle.std.specs.Prelude.{◌≡◌, ◌≤◌, length};
ghost use Rattle.defmt_dates.specs.Texts.{whole_days, clock_of_seconds, clock_of_millis, clock_of_micros};

use crate::bytes::{TimeText, divided, millionths, put, put_decimal, thousandths};
use crate::times::{DAY, time_bytes};

// The whole days, where there are any.
fn whole_days(seconds: u128) -> TimeText
    ensures text { result.items ≡ whole_days seconds }
    ensures short { length result.items ≤ 35 }
{
    let mut text = TimeText::new();
    if seconds < u128::from(DAY) {
        return text;
    }
    let (days, _) = divided(seconds, DAY);
    put_decimal(&mut text, days);
    put(&mut text, b":");
    text
}

// The time on a clock.
fn clock(seconds: u128) -> TimeText
    ensures text { result.items ≡ clock_of_seconds seconds }
    ensures short { length result.items ≤ 43 }
{
    let mut text = whole_days(seconds);
    let (_, rest) = divided(seconds, DAY);
    put(&mut text, &time_bytes(rest));
    text
}

/// Seconds on a clock, as `12:00:00`; whole days, where there are any, stand in front, as `20787:12:00:00`.
pub fn clock_of_seconds(seconds: u128) -> TimeText
    ensures { result.items ≡ clock_of_seconds seconds }
{
    clock(seconds)
}

/// Milliseconds on such a clock, with three digits behind the seconds.
pub fn clock_of_millis(millis: u128) -> TimeText
    ensures { result.items ≡ clock_of_millis millis }
{
    let (seconds, parts) = divided(millis, 1_000);
    let mut text = clock(seconds);
    put(&mut text, &thousandths(parts));
    text
}

/// Microseconds on such a clock, with six digits behind the seconds.
pub fn clock_of_micros(micros: u128) -> TimeText
    ensures { result.items ≡ clock_of_micros micros }
{
    let (seconds, parts) = divided(micros, 1_000_000);
    let mut text = clock(seconds);
    put(&mut text, &millionths(parts));
    text
}
