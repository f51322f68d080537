//! Dates in the Gregorian calendar and clocks, as text (ISO 8601), of numbers of seconds, milliseconds or microseconds since
//! 1970-01-01 00:00:00 UTC.
//!
//! So 1,796,040,000 seconds are `2026-11-30T12:00:00Z`, and on a clock `20787:12:00:00` (number_tests, `dates`).
#![tactic(auto)]

mod bytes;
mod calendar;
mod clocks;
mod laws;
mod times;

pub use bytes::TimeText;
pub use clocks::{clock_of_micros, clock_of_millis, clock_of_seconds};
pub use laws::texts_are_ascii;
pub use times::{date_of_millis, date_of_seconds};
