//! Hints of how to print a parameter.

ghost use Rattle.std.specs.Prelude.{◌≡◌};
ghost use Rattle.defmt_grammar.specs.Kind.{at_word};
ghost use Rattle.defmt_grammar.specs.Hint.{named_hint, full_hint_names, fill_of, width_of, base_of, radix_of, full_hint, hint_of, before_base};

use crate::language::Language;
use crate::parts::{before, behind, number_of};

/// The base of printed digits. The defmt book, "Display hints".
#[derive(Clone, Copy, Debug)]
pub enum Base {
    /// `x`: hexadecimal, in lower case.
    Hex,
    /// `X`: hexadecimal, in upper case.
    HexUpper,
    /// `b`: binary.
    Binary,
    /// `o`: octal.
    Octal,
}

/// What a date and time counts, from 1970-01-01 00:00:00 UTC.
#[derive(Clone, Copy, Debug)]
pub enum IsoUnit {
    /// `iso8601s`: seconds.
    Seconds,
    /// `iso8601ms`: milliseconds.
    Millis,
}

/// What a clock counts.
#[derive(Clone, Copy, Debug)]
pub enum ClockUnit {
    /// `ts`: seconds.
    Seconds,
    /// `tms`: milliseconds.
    Millis,
    /// `tus`: microseconds.
    Micros,
}

/// How a parameter is to be printed. The defmt book, "Display hints".
#[derive(Clone, Copy, Debug)]
pub enum Hint {
    /// None, or an empty text after the colon.
    Plain,
    /// `?`: texts and characters in quotes.
    Debug,
    /// Digits of this base, with `alt` (`#`) behind `0x`, `0b` or `0o`, and filled with zeros up to
    /// `width`, from 0 to 255, which counts what stands in front.
    Radix { base: Base, alt: bool, width: u8 },
    /// `a`: bytes as a text.
    Ascii,
    /// `us`: a number of microseconds.
    Micros,
    /// `ms`: a number of milliseconds.
    Millis,
    /// A date and time, in the full language.
    Iso(IsoUnit),
    /// A clock with days, in the full language.
    Clock(ClockUnit),
    /// A width alone, in the full language: decimal digits, filled with zeros up to this width, from
    /// 1 to 255.
    Pad(u8),
}

// The hint of a text that is a word of its own.
fn named_hint(text: &str) -> Option<Hint>
    ensures { result ≡ named_hint text.now }
{
    match text {
        "" => Some(Hint::Plain),
        "?" => Some(Hint::Debug),
        "a" => Some(Hint::Ascii),
        "us" => Some(Hint::Micros),
        "ms" => Some(Hint::Millis),
        _ => None,
    }
}

// The hint of a word of the full language alone.
fn full_named_hint(text: &str) -> Option<Hint>
    ensures { result ≡ at_word text.now full_hint_names }
{
    match text {
        "iso8601s" => Some(Hint::Iso(IsoUnit::Seconds)),
        "iso8601ms" => Some(Hint::Iso(IsoUnit::Millis)),
        "ts" => Some(Hint::Clock(ClockUnit::Seconds)),
        "tms" => Some(Hint::Clock(ClockUnit::Millis)),
        "tus" => Some(Hint::Clock(ClockUnit::Micros)),
        _ => None,
    }
}

// A width that isn't left out: `0` and digits.
#[tactic(auto, unfolding(crate::specs::Hint::fill_of))]
fn fill_of(text: &str) -> Option<u8>
    ensures { result ≡ fill_of text.now }
{
    let digits = behind(text, '0')?;
    if behind(digits, '0').is_some() || digits.len() > 3 {
        return None;
    }
    let width = number_of(digits)?;
    if width <= 255 {
        Some(width as u8)
    } else {
        None
    }
}

// The width that stands before a radix letter.
#[tactic(auto, unfolding(crate::specs::Hint::width_of))]
fn width_of(text: &str) -> Option<u8>
    ensures { result ≡ width_of text.now }
{
    if text.is_empty() {
        Some(0)
    } else {
        fill_of(text)
    }
}

// What stands before the radix letter, and its base.
#[tactic(auto, unfolding(crate::specs::Hint::base_of))]
fn base_of(text: &str) -> Option<(&str, Base)>
    ensures { before_base result ≡ base_of text.now }
{
    if let Some(width) = before(text, 'x') {
        Some((width, Base::Hex))
    } else if let Some(width) = before(text, 'X') {
        Some((width, Base::HexUpper))
    } else if let Some(width) = before(text, 'b') {
        Some((width, Base::Binary))
    } else if let Some(width) = before(text, 'o') {
        Some((width, Base::Octal))
    } else {
        None
    }
}

// The hint of an optional `#`, an optional width and a radix letter.
#[tactic(auto, unfolding(crate::specs::Hint::radix_of))]
fn radix_of(text: &str) -> Option<Hint>
    ensures { result ≡ radix_of text.now }
{
    let (alt, rest) = match behind(text, '#') {
        Some(rest) => (true, rest),
        None => (false, text),
    };
    let (width, base) = base_of(rest)?;
    let width = width_of(width)?;
    Some(Hint::Radix { base, alt, width })
}

// The hint of a text of the full language alone.
#[tactic(auto, unfolding(crate::specs::Hint::full_hint))]
fn full_hint(text: &str, language: Language) -> Option<Hint>
    ensures { result ≡ full_hint language text.now }
{
    match language {
        Language::Base => None,
        Language::Full => match full_named_hint(text) {
            Some(hint) => Some(hint),
            None => Some(Hint::Pad(fill_of(text)?)),
        },
    }
}

/// The hint that a text spells in a language.
#[tactic(auto, unfolding(crate::specs::Hint::hint_of))]
pub fn hint_of(text: &str, language: Language) -> Option<Hint>
    ensures { result ≡ hint_of language text.now }
{
    if let Some(hint) = named_hint(text) {
        Some(hint)
    } else if let Some(hint) = radix_of(text) {
        Some(hint)
    } else {
        full_hint(text, language)
    }
}
