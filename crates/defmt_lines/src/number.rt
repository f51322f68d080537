//! Numbers in lines.

ghost use Rattle.std.specs.Prelude.{◌≡◌, ◌<◌, ◌≤◌, ◌^◌, ◌-◌, min, true, unwrap_or, IfSome};
ghost use Rattle.std.specs.Str.{all_ascii_digits};
ghost use Rattle.std.specs.Str.Parse.{digits_value};
ghost use Rattle.defmt_lines.specs.Number.{has_leading_zero, is_digits, number_within, within, writer_of};

fn all_digits(text: &str) -> bool
    ensures { result ≡ all_ascii_digits text.now }
{
    text.as_bytes().iter().all(|byte| byte.is_ascii_digit())
}

// One or more decimal digits.
#[tactic(auto, unfolding(crate::specs::Number::is_digits))]
fn is_digits(text: &str) -> bool
    ensures { result ≡ is_digits text.now }
{
    !text.is_empty() && all_digits(text)
}

#[tactic(auto, unfolding(crate::specs::Number::has_leading_zero))]
fn has_leading_zero(text: &[u8]) -> bool
    ensures { result ≡ has_leading_zero text.now }
{
    match text {
        [first, _, ..] => *first == b'0',
        _ => false,
    }
}

// The number that digits stand for, or the greatest of 64 bits where it is larger.
fn value_of(text: &str) -> u64
    requires { is_digits text.now ≡ true }
    ensures { result ≡ min (digits_value 10 text.now) (2 ^ 64 - 1) }
{
    match text.as_bytes() {
        // Most numbers are writers, of one digit.
        [digit] => u64::from(*digit - b'0'),
        _ => text.parse().unwrap_or(u64::MAX),
    }
}

// The number that digits stand for, where it lies in the range.
#[tactic(auto, unfolding(crate::specs::Number::within))]
fn within(low: u64, high: u64, text: &str) -> Option<u64>
    requires digits { is_digits text.now ≡ true }
    requires small { high < 2 ^ 64 - 1 }
    ensures value { result ≡ within low high text.now }
    ensures range { IfSome result (λ n. (low ≤ n) × (n ≤ high)) }
{
    let value = value_of(text);
    if low <= value && value <= high {
        Some(value)
    } else {
        None
    }
}

/// The number from `low` to `high` that a text is: decimal digits without a sign or a leading zero.
#[tactic(auto, unfolding(crate::specs::Number::number_within))]
pub fn number_within(low: u64, high: u64, text: &str) -> Option<u64>
    requires { high < 2 ^ 64 - 1 }
    ensures value { result ≡ number_within low high text.now }
    ensures range { IfSome result (λ n. (low ≤ n) × (n ≤ high)) }
{
    if is_digits(text) && !has_leading_zero(text.as_bytes()) {
        within(low, high, text)
    } else {
        None
    }
}

/// The writer that one or more digits stand for, `None` inside for a number above 7.
#[tactic(auto, unfolding(crate::specs::Number::writer_of))]
pub fn writer_of(text: &str) -> Option<Option<u8>>
    ensures value { result ≡ writer_of text.now }
    ensures of_eight { IfSome result (λ writer. unwrap_or writer 0 < 8) }
{
    if !is_digits(text) {
        return None;
    }
    match within(0, 7, text) {
        Some(writer) => Some(Some(writer as u8)),
        None => Some(None),
    }
}
