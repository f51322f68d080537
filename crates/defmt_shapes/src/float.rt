//! Floats with a point or an exponent, and those that are no numbers.

ghost use Rattle.std.specs.Prelude.{◌≡◌, IfSome};
ghost use Rattle.std.specs.Option.{option_copied};
ghost use Rattle.std.specs.Str.{IsUtf8};
ghost use Rattle.defmt_shapes.specs.Leads.{after_digits, after_fraction, after_exponent, after_scale, after_unsigned, after_float};

use crate::parts::{Class, behind, behind_text, split_run};

// What follows the digits in front, of which there is at least one.
#[tactic(auto, unfolding(crate::specs::Leads::after_digits))]
fn after_digits(text: &str) -> Option<&str>
    ensures rest { option_copied result ≡ after_digits text.now }
    ensures utf8 { IfSome result (λ rest. IsUtf8 rest.now) }
{
    let (digits, rest) = split_run(text, Class::Decimal);
    if digits.is_empty() { None } else { Some(rest) }
}

// What follows `.` and digits.
#[tactic(auto, unfolding(crate::specs::Leads::after_fraction))]
fn after_fraction(text: &str) -> Option<&str>
    ensures rest { option_copied result ≡ after_fraction text.now }
    ensures utf8 { IfSome result (λ rest. IsUtf8 rest.now) }
{
    match behind(text, '.') {
        Some(digits) => after_digits(digits),
        None => None,
    }
}

// What follows `e`, a sign or none, and digits.
#[tactic(auto, unfolding(crate::specs::Leads::after_exponent))]
fn after_exponent(text: &str) -> Option<&str>
    ensures rest { option_copied result ≡ after_exponent text.now }
    ensures utf8 { IfSome result (λ rest. IsUtf8 rest.now) }
{
    let Some(more) = behind(text, 'e') else {
        return None;
    };
    if let Some(digits) = behind(more, '-') {
        return after_digits(digits);
    }
    if let Some(digits) = behind(more, '+') {
        return after_digits(digits);
    }
    after_digits(more)
}

// What follows a fraction, an exponent or both.
#[tactic(auto, unfolding(crate::specs::Leads::after_scale))]
fn after_scale(text: &str) -> Option<&str>
    ensures rest { option_copied result ≡ after_scale text.now }
    ensures utf8 { IfSome result (λ rest. IsUtf8 rest.now) }
{
    let Some(rest) = after_fraction(text) else {
        return after_exponent(text);
    };
    match after_exponent(rest) {
        Some(more) => Some(more),
        None => Some(rest),
    }
}

// What follows a float without a sign.
#[tactic(auto, unfolding(crate::specs::Leads::after_unsigned))]
fn after_unsigned(text: &str) -> Option<&str>
    ensures rest { option_copied result ≡ after_unsigned text.now }
    ensures utf8 { IfSome result (λ rest. IsUtf8 rest.now) }
{
    if let Some(rest) = behind_text(text, "inf") {
        return Some(rest);
    }
    match after_digits(text) {
        Some(scale) => after_scale(scale),
        None => None,
    }
}

/// What follows the float in front.
#[tactic(auto, unfolding(crate::specs::Leads::after_float))]
pub fn after_float(text: &str) -> Option<&str>
    ensures rest { option_copied result ≡ after_float text.now }
    ensures utf8 { IfSome result (λ rest. IsUtf8 rest.now) }
{
    if let Some(rest) = behind_text(text, "NaN") {
        return Some(rest);
    }
    match behind(text, '-') {
        Some(unsigned) => after_unsigned(unsigned),
        None => after_unsigned(text),
    }
}
