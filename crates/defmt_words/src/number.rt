//! Numbers in words.

ghost use Rattle.std.specs.Prelude.{◌≡◌, ◌≤◌, length};
ghost use Rattle.std.specs.Option.{option_copied};
ghost use Rattle.defmt_grammar.specs.Cut.{strip};
ghost use Rattle.defmt_words.specs.Numbers.{numeral_in, decimal_in, hexadecimal_digits, hexadecimal_in};

use std::marker::Model;

/// A number from `LEAST` to `MOST`. Contracts see the number itself.
#[derive(Drop)]
pub struct Within<const LEAST: u32, const MOST: u32> {
    number: u32,
}

/// How many statements are generated.
pub type Count = Within<1, 4096>;

/// The number of an up-buffer.
pub type Up = Within<0, 15>;

/// By how many threads a recording is decoded.
pub type Jobs = Within<1, 64>;

impl<const LEAST: u32, const MOST: u32> Model for Within<LEAST, MOST> {
    ghost use Rattle.std.specs.Prelude.{ℕ, ◌≤◌};

    ghost Value = { ℕ };

    ghost view = { λ within. within.number };

    ghost invariant = { λ within. (LEAST ≤ within.number) × (within.number ≤ MOST) };
}

impl<const LEAST: u32, const MOST: u32> Within<LEAST, MOST> {
    /// The number.
    pub fn number(&self) -> u32
        ensures number { result ≡ self.now }
        ensures least { LEAST ≤ result }
        ensures most { result ≤ MOST }
    {
        self.number
    }
}

// The number that decimal digits spell, where 32 bits hold it.
fn numeral_of(text: &str) -> Option<u32>
    ensures { result ≡ numeral_in text.now }
{
    let [first, ..] = text.as_bytes() else {
        return None;
    };
    if *first == b'+' {
        return None;
    }
    match text.parse::<u32>() {
        Ok(number) => Some(number),
        Err(_) => None,
    }
}

/// The number that the text spells: decimal, without sign or leading zero, from `LEAST` to `MOST`.
pub fn decimal_of<const LEAST: u32, const MOST: u32>(text: &str) -> Option<Within<LEAST, MOST>>
    ensures { result ≡ decimal_in LEAST MOST text.now }
{
    if text.len() > 1 && text.as_bytes()[0] == b'0' {
        return None;
    }
    match numeral_of(text) {
        Some(number) if LEAST <= number && number <= MOST => Some(Within { number }),
        _ => None,
    }
}

// What stands behind a text's front, if it is this one.
fn behind<'a>(text: &'a str, front: &str) -> Option<&'a str>
    ensures { option_copied result ≡ strip front.now text.now }
{
    text.strip_prefix(front)
}

// The number that at most 8 hexadecimal digits spell, where there is one.
fn hexadecimal_digits(digits: &str) -> Option<u32>
    requires { length digits.now ≤ 8 }
    ensures { result ≡ hexadecimal_digits digits.now }
{
    let [first, ..] = digits.as_bytes() else {
        return None;
    };
    if *first == b'+' {
        return None;
    }
    match u32::from_str_radix(digits, 16) {
        Ok(number) => Some(number),
        Err(_) => None,
    }
}

/// The number that the text spells: `0x` and 1 to 8 hexadecimal digits of either case.
pub fn hexadecimal_of(text: &str) -> Option<u32>
    ensures { result ≡ hexadecimal_in text.now }
{
    let digits = behind(text, "0x")?;
    if digits.len() > 8 {
        return None;
    }
    hexadecimal_digits(digits)
}
