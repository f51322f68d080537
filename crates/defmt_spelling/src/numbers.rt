//! Numbers of a slot.
ghost use Rattle.std.specs.Prelude.{◌≡◌, ◌<◌, ◌≤◌, ◌+◌, ◌^◌, ◌%◌, ◌==◌, ◌&&◌, nat_lt, ℕ, pos, MatchOption};
ghost use Rattle.defmt_grammar.specs.Sizes.{is_signed};
ghost use Rattle.defmt_grammar.specs.Slots.{IsSound};
ghost use Rattle.defmt_shapes.specs.Shape.{IsNumber};
ghost use Rattle.defmt_shapes.specs.Spelling.{Holds};
ghost use Rattle.defmt_spelling.specs.Leaves.{NotFloat, decimal_cause, hexadecimal_cause, negative_cause};
ghost use Rattle.defmt_spelling.specs.Meaning.{bits_at, decimal_at, hexadecimal_at, negative_at, negated};
ghost use Rattle.defmt_spelling.specs.Reading.{GivesLeaf};
ghost use Rattle.defmt_values.specs.Plain.{uint, int, bits, float};
ghost use Rattle.defmt_values.specs.Scan.{uint_cause, int_cause, bits_cause, float_cause};

use crate::fault::{ArgFault, Cause};
use crate::floats::{nearest_bits, text_bits};
use defmt_grammar::{FloatSize, Kind, Slot};
use defmt_shapes::Number;
use defmt_values::{Value, float_bits, is_below, is_multiple, is_of_bits, is_signed, size_bits};

// A number of an unsigned kind.
fn uint_value(slot: Slot, number: Number) -> Result<Value, ArgFault>
    ensures { (n : ℕ) → Holds number n → GivesLeaf result (uint n) (uint_cause slot n) }
{
    match slot {
        Slot::One(Kind::Uint(size)) => match number {
            Number::Within(n) if is_of_bits(n, size_bits(size)) => Ok(Value::Uint(n)),
            _ => Err(Cause::Range.into()),
        },
        _ => Err(Cause::Kind.into()),
    }
}

// A number of a signed kind that isn't negative.
fn positive_value(slot: Slot, number: Number) -> Result<Value, ArgFault>
    ensures { (n : ℕ) → Holds number n → GivesLeaf result (int (pos n)) (int_cause slot (pos n)) }
{
    match slot {
        Slot::One(Kind::Int(size)) => match number {
            Number::Within(n) if n <= i128::MAX as u128 && is_signed(n as i128, size_bits(size)) =>
                { Ok(Value::Int(n as i128)) }
            _ => Err(Cause::Range.into()),
        },
        _ => Err(Cause::Kind.into()),
    }
}

// The number below zero, where 128 bits hold it.
fn negated(number: Number) -> Option<i128>
    ensures { (n : ℕ) → Holds number n → MatchOption result (2 ^ 127 < n) (λ z. z ≡ negated n) }
{
    let Number::Within(n) = number else {
        return None;
    };
    if n == 0 {
        return Some(0);
    }
    if n - 1 > i128::MAX as u128 {
        return None;
    }
    Some(-1 - (n - 1) as i128)
}

/// A number of a signed kind behind `-`.
pub fn negative_value(slot: Slot, number: Number) -> Result<Value, ArgFault>
    ensures { (n : ℕ) → Holds number n → GivesLeaf result (int (negated n))
        (int_cause slot (negated n)) }
{
    match slot {
        Slot::One(Kind::Int(size)) => match negated(number) {
            Some(z) if is_signed(z, size_bits(size)) => Ok(Value::Int(z)),
            _ => Err(Cause::Range.into()),
        },
        _ => Err(Cause::Kind.into()),
    }
}

// Whether no bit lies outside the bytes `first` to `first + width - 1`.
fn is_within(n: u128, first: u8, width: u8) -> bool
    requires { first + width ≤ 16 }
    ensures { result ≡ (nat_lt n (256 ^ (first + width)) && (n % 256 ^ first == 0)) }
{
    is_below(n, u32::from(first) + u32::from(width)) && is_multiple(n, u32::from(first))
}

// A number of bit fields.
fn bits_value(slot: Slot, number: Number) -> Result<Value, ArgFault>
    requires { IsSound slot }
    ensures { (n : ℕ) → Holds number n → GivesLeaf result (bits n) (bits_cause slot n) }
{
    match slot {
        Slot::Bits { first, width } => {
            let Number::Within(n) = number else {
                return Err(Cause::Range.into());
            };
            if is_within(n, first, width) {
                Ok(Value::Bits(n))
            } else {
                Err(Cause::Range.into())
            }
        }
        _ => Err(Cause::Kind.into()),
    }
}

/// A number of decimal digits, where no float stands.
pub fn decimal_value(slot: Slot, number: Number) -> Result<Value, ArgFault>
    requires sound { IsSound slot }
    requires other { NotFloat slot }
    ensures { (n : ℕ) → Holds number n → GivesLeaf result (decimal_at slot n)
        (decimal_cause slot n) }
{
    match slot {
        Slot::One(Kind::Int(_)) => positive_value(slot, number),
        Slot::Bits { .. } => bits_value(slot, number),
        _ => uint_value(slot, number),
    }
}

/// The same of any slot.
pub fn digits_value(slot: Slot, number: Number, digits: &str) -> Result<Value, ArgFault>
    requires { IsSound slot }
    ensures { (n : ℕ) → Holds number n → IsNumber 10 digits.now n
        → GivesLeaf result (decimal_at slot n) (decimal_cause slot n) }
{
    match slot {
        Slot::One(Kind::Float(size)) => Ok(Value::Float(nearest_bits(size, false, digits))),
        _ => decimal_value(slot, number),
    }
}

/// A number of decimal digits behind `-`.
pub fn signed_value(slot: Slot, number: Number, digits: &str) -> Result<Value, ArgFault>
    ensures { (n : ℕ) → Holds number n → IsNumber 10 digits.now n
        → GivesLeaf result (negative_at slot n) (negative_cause slot n) }
{
    match slot {
        Slot::One(Kind::Float(size)) => Ok(Value::Float(nearest_bits(size, true, digits))),
        _ => negative_value(slot, number),
    }
}

// A number of hexadecimal digits for a float: its bits.
fn float_bits_value(size: FloatSize, number: Number) -> Result<Value, ArgFault>
    ensures { (n : ℕ) → Holds number n
        → GivesLeaf result (float n) (float_cause (Slot.One (Kind.Float size)) n) }
{
    match number {
        Number::Within(n) if is_of_bits(n, float_bits(size)) => Ok(Value::Float(n as u64)),
        _ => Err(Cause::Range.into()),
    }
}

/// The text of a float.
pub fn float_value(slot: Slot, text: &str) -> Result<Value, ArgFault>
    ensures { GivesLeaf result (float (bits_at slot text.now))
        (float_cause slot (bits_at slot text.now)) }
{
    match slot {
        Slot::One(Kind::Float(size)) => Ok(Value::Float(text_bits(size, text))),
        _ => Err(Cause::Kind.into()),
    }
}

/// A number of hexadecimal digits.
pub fn hexadecimal_value(slot: Slot, number: Number) -> Result<Value, ArgFault>
    requires { IsSound slot }
    ensures { (n : ℕ) → Holds number n → GivesLeaf result (hexadecimal_at slot n)
        (hexadecimal_cause slot n) }
{
    match slot {
        Slot::Bits { .. } => bits_value(slot, number),
        Slot::One(Kind::Float(size)) => float_bits_value(size, number),
        _ => uint_value(slot, number),
    }
}
