//! What holds of the texts.

ghost use Rattle.std.specs.Prelude.{◌^◌, ◌<◌, ℕ, IsAscii};
ghost use Rattle.defmt_dates.specs.Texts.{date_of_seconds, date_of_millis, clock_of_seconds, clock_of_millis, clock_of_micros};

/// The texts of all numbers of 128 bits are ASCII.
pub fn texts_are_ascii()
    ensures dates { (n : ℕ) → n < 2 ^ 128 → IsAscii (date_of_seconds n) × IsAscii (date_of_millis n) }
    ensures clocks { (n : ℕ) → n < 2 ^ 128
        → IsAscii (clock_of_seconds n) × IsAscii (clock_of_millis n) × IsAscii (clock_of_micros n) }
{}
