//! What holds of digits.

ghost use Rattle.std.specs.Prelude.{◌≡◌, ◌<◌, ◌≤◌, ◌^◌, ℕ, List, Bool, length};
ghost use Rattle.defmt_hints.specs.Digits.{AreDigits, digits, number_text, zero_filled};

/// A number has one list of digits, whose weighted sum it is and which has no leading zero. Its text has these
/// characters, and where the number is below the power of the base that a width stands for, filling up to that width
/// gives just as many.
pub fn digits_are_unique()
    ensures are { (base n : ℕ) → 2 ≤ base → AreDigits base n (digits base n) }
    ensures only { (base n : ℕ) (ds : List ℕ) → 2 ≤ base → AreDigits base n ds → ds ≡ digits base n }
    ensures filled { (base width n : ℕ) (upper : Bool) → 2 ≤ base → 0 < width → n < base ^ width → length (zero_filled width (number_text base upper n)) ≡ width }
{}
