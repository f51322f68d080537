//! Decimal numbers.

ghost use Rattle.std.specs.Prelude.{◌≡◌, ◌⊎◌, ◌-◌, ◌<◌, ◌≤◌, ℕ, List, take, length, slice_index_or, IfSome, MatchOption};
ghost use Rattle.std.specs.Char.{digit_value};
ghost use Rattle.std.specs.Str.{IsUtf8, IsCharBoundary};
ghost use Rattle.std.specs.Str.Parse.{AllDigits, digits_value};
ghost use Rattle.defmt_grammar.specs.declared.language.Language.{Language};
ghost use Rattle.defmt_shapes.specs.Shape.{HeadShape, decimal, negative};

use crate::parts::{behind, ends_there};

// A number up to this one has room for a digit more in 64 bits.
const MOST: u64 = 1_844_674_407_370_955_159;

// So many digits have room in 64 bits.
const DIGITS: usize = 19;

// The value of a decimal digit.
#[inline(always)]
fn digit_of(byte: u8) -> Option<u8>
    ensures { MatchOption result ((byte < 48) ⊎ (57 < byte))
        (λ digit. (48 ≤ byte) × (byte ≤ 57) × (digit ≡ byte - 48)) }
{
    let digit = byte.wrapping_sub(b'0');
    if digit > 9 {
        return None;
    }
    Some(digit)
}

/// The number of decimal digits that the text begins with, and what follows it. Numbers from 18,446,744,073,709,551,600 on are left.
pub fn quick_decimal(text: &str) -> Option<(u64, &str)>
    ensures value { (language : Language) → MatchOption result
        ((n : ℕ) (rest : List ℕ) → HeadShape language text.now (decimal n) rest
        → 18446744073709551600 ≤ n)
        (λ p. HeadShape language text.now (decimal p.0) p.1.now) }
    ensures utf8 { IfSome result (λ p. IsUtf8 p.1.now) }
{
    let front = &text.as_bytes()[..text.len().min(DIGITS)];
    let mut number = 0u64;
    for (i, byte) in front.iter().enumerate() {
        let Some(digit) = digit_of(*byte) else {
            return number_before(text, i, number);
        };
        number = number * 10 + u64::from(digit);
    }
    if text.len() > DIGITS {
        return long_decimal(text);
    }
    number_before(text, text.len(), number)
}

// The same of a number that may have more digits.
#[inline(never)]
fn long_decimal(text: &str) -> Option<(u64, &str)>
    ensures value { (language : Language) → MatchOption result
        ((n : ℕ) (rest : List ℕ) → HeadShape language text.now (decimal n) rest
        → 18446744073709551600 ≤ n)
        (λ p. HeadShape language text.now (decimal p.0) p.1.now) }
    ensures utf8 { IfSome result (λ p. IsUtf8 p.1.now) }
{
    let mut number = 0u64;
    for (at, byte) in text.as_bytes().iter().enumerate() {
        if *byte < b'0' || *byte > b'9' {
            return number_before(text, at, number);
        }
        if number > MOST {
            return None;
        }
        number = number * 10 + u64::from(*byte - b'0');
    }
    number_before(text, text.len(), number)
}

// The number of the digits before this place, where it may end there.
fn number_before(text: &str, at: usize, number: u64) -> Option<(u64, &str)>
    requires place { IsCharBoundary text.now at }
    requires digits { AllDigits 10 (take at text.now) }
    requires value { digits_value 10 (take at text.now) ≡ number }
    requires stop { at < length text.now → 10 ≤ digit_value (slice_index_or text.now at 0) }
    ensures value { (language : Language) → MatchOption result
        ((n : ℕ) (rest : List ℕ) → HeadShape language text.now (decimal n) rest
        → 18446744073709551600 ≤ n)
        (λ p. HeadShape language text.now (decimal p.0) p.1.now) }
    ensures utf8 { IfSome result (λ p. IsUtf8 p.1.now) }
{
    if at == 0 {
        return None;
    }
    let (_, rest) = text.split_at(at);
    if ends_there(rest) {
        Some((number, rest))
    } else {
        None
    }
}

/// The number behind the sign `-` that the text begins with, and what follows it. The same numbers are left.
pub fn quick_negative(text: &str) -> Option<(u64, &str)>
    ensures value { (language : Language) → MatchOption result
        ((n : ℕ) (rest : List ℕ) → HeadShape language text.now (negative n) rest
        → 18446744073709551600 ≤ n)
        (λ p. HeadShape language text.now (negative p.0) p.1.now) }
    ensures utf8 { IfSome result (λ p. IsUtf8 p.1.now) }
{
    let Some(digits) = behind(text, '-') else {
        return None;
    };
    quick_decimal(digits)
}
