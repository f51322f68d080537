//! The values that scripts mostly have, read by their slot. Where no value is answered, the general reader is asked.
ghost use Rattle.std.specs.Prelude.{◌≡◌, ◌<◌, ◌^◌, IfOk, IfSome};
ghost use Rattle.std.specs.Bool.{OnTrue};
ghost use Rattle.std.specs.Str.{IsUtf8};
ghost use Rattle.defmt_grammar.specs.Sizes.{size_bits};
ghost use Rattle.defmt_grammar.specs.Slots.{IsSound};
ghost use Rattle.defmt_spelling.specs.Leaves.{NotFloat};
ghost use Rattle.defmt_spelling.specs.Quick.{Appends, IsQuick};
ghost use Rattle.defmt_values.specs.View.{plain};

use crate::numbers::{decimal_value, negative_value};
use defmt_grammar::{IntSize, Kind, Slot, Text};
use defmt_shapes::{Number, quick_bytes, quick_decimal, quick_flag, quick_negative, quick_quoted};
use defmt_values::{Args, Value};
use dl_io::Memory;
use std::alloc::Global;

// A number of decimal digits, without a sign or with one.
fn number(slot: Slot, text: &str) -> Option<(Value, &str)>
    requires sound { IsSound slot }
    requires other { NotFloat slot }
    ensures value { IfSome result (λ p. IsQuick slot text.now (plain p.0) p.1.now) }
    ensures utf8 { IfSome result (λ p. IsUtf8 p.1.now) }
{
    let Some((number, rest)) = quick_decimal(text) else {
        return below_zero(slot, text);
    };
    match decimal_value(slot, Number::Within(u128::from(number))) {
        Ok(value) => Some((value, rest)),
        Err(_) => None,
    }
}

// A number behind a sign.
fn below_zero(slot: Slot, text: &str) -> Option<(Value, &str)>
    requires { NotFloat slot }
    ensures value { IfSome result (λ p. IsQuick slot text.now (plain p.0) p.1.now) }
    ensures utf8 { IfSome result (λ p. IsUtf8 p.1.now) }
{
    let Some((number, rest)) = quick_negative(text) else {
        return None;
    };
    match negative_value(slot, Number::Within(u128::from(number))) {
        Ok(value) => Some((value, rest)),
        Err(_) => None,
    }
}

/// Appends the value of a slot that the text begins with, where it is one that most scripts have, and answers what follows it.
///
/// # Errors
/// `Memory` where memory runs out.
pub fn push_quick<'a>(
    alloc: Global,
    slot: Slot,
    text: &'a str,
    args: &mut Args,
) -> Result<Option<&'a str>, Memory>
    requires { IsSound slot }
    ensures value { IfOk result (λ o. Appends slot text.now args.old args.new o) }
    ensures utf8 { IfOk result (λ o. IfSome o (λ rest. IsUtf8 rest.now)) }
{
    match slot {
        Slot::One(Kind::Uint(size)) => push_uint(size, text, args),
        Slot::Bits { first: 0, width } => push_bits(width, text, args),
        Slot::One(Kind::Int(_)) | Slot::Bits { .. } => push_number(slot, text, args),
        Slot::One(Kind::Bool) => push_truth(text, args),
        Slot::One(Kind::Str) => push_quoted(alloc, text, args),
        Slot::One(Kind::Bytes) => push_bytes(alloc, text, args),
        _ => Ok(None),
    }
}

// The same of a number of a signed kind, or of any bit fields.
fn push_number<'a>(slot: Slot, text: &'a str, args: &mut Args) -> Result<Option<&'a str>, Memory>
    requires sound { IsSound slot }
    requires other { NotFloat slot }
    ensures value { IfOk result (λ o. Appends slot text.now args.old args.new o) }
    ensures utf8 { IfOk result (λ o. IfSome o (λ rest. IsUtf8 rest.now)) }
{
    let Some((value, rest)) = number(slot, text) else {
        return Ok(None);
    };
    args.push(value)?;
    Ok(Some(rest))
}

// The same of a truth value.
fn push_truth<'a>(text: &'a str, args: &mut Args) -> Result<Option<&'a str>, Memory>
    ensures value { IfOk result
        (λ o. Appends (Slot.One Kind.Bool) text.now args.old args.new o) }
    ensures utf8 { IfOk result (λ o. IfSome o (λ rest. IsUtf8 rest.now)) }
{
    let Some((value, rest)) = quick_flag(text) else {
        return Ok(None);
    };
    args.push(Value::Bool(value))?;
    Ok(Some(rest))
}

// The same of a text in quotes.
fn push_quoted<'a>(alloc: Global, text: &'a str, args: &mut Args) -> Result<Option<&'a str>, Memory>
    ensures value { IfOk result
        (λ o. Appends (Slot.One Kind.Str) text.now args.old args.new o) }
    ensures utf8 { IfOk result (λ o. IfSome o (λ rest. IsUtf8 rest.now)) }
{
    let Some((inside, rest)) = quick_quoted(text) else {
        return Ok(None);
    };
    let copy = copy_of(alloc, inside)?;
    args.push(Value::Str(copy))?;
    Ok(Some(rest))
}

fn copy_of(alloc: Global, text: &str) -> Result<Text, Memory>
    ensures { IfOk result (λ copy. copy ≡ text.now) }
{
    Ok(Text::from_string(String::from_str(alloc, text)?))
}

// The same of bytes.
fn push_bytes<'a>(alloc: Global, text: &'a str, args: &mut Args) -> Result<Option<&'a str>, Memory>
    ensures value { IfOk result
        (λ o. Appends (Slot.One Kind.Bytes) text.now args.old args.new o) }
    ensures utf8 { IfOk result (λ o. IfSome o (λ rest. IsUtf8 rest.now)) }
{
    let Some((bytes, rest)) = quick_bytes(alloc, text)? else {
        return Ok(None);
    };
    args.push(Value::Bytes(bytes))?;
    Ok(Some(rest))
}

// Whether a number is one of an unsigned kind of this size.
fn is_of_size(number: u64, size: IntSize) -> bool
    ensures { OnTrue result (number < 2 ^ size_bits size) }
{
    match size {
        IntSize::W8 => number <= 0xff,
        IntSize::W16 => number <= 0xffff,
        IntSize::W32 | IntSize::Native => number <= 0xffff_ffff,
        IntSize::W64 | IntSize::W128 => true,
    }
}

// The same of an unsigned number of this size.
fn push_uint<'a>(size: IntSize, text: &'a str, args: &mut Args) -> Result<Option<&'a str>, Memory>
    ensures value { IfOk result
        (λ o. Appends (Slot.One (Kind.Uint size)) text.now args.old args.new o) }
    ensures utf8 { IfOk result (λ o. IfSome o (λ rest. IsUtf8 rest.now)) }
{
    let Some((number, rest)) = quick_decimal(text) else {
        return Ok(None);
    };
    if !is_of_size(number, size) {
        return Ok(None);
    }
    args.push(Value::Uint(u128::from(number)))?;
    Ok(Some(rest))
}

// Whether a number has at most so many bytes. It isn't said of some numbers.
fn is_of_bytes(number: u64, bytes: u8) -> bool
    ensures { OnTrue result (number < 256 ^ bytes) }
{
    match bytes {
        1 => number <= 0xff,
        2 => number <= 0xffff,
        4 => number <= 0xffff_ffff,
        8 => true,
        _ => false,
    }
}

// The same of a number of bit fields, whose lowest byte is sent.
fn push_bits<'a>(width: u8, text: &'a str, args: &mut Args) -> Result<Option<&'a str>, Memory>
    ensures value { IfOk result
        (λ o. Appends (Slot.Bits 0 width) text.now args.old args.new o) }
    ensures utf8 { IfOk result (λ o. IfSome o (λ rest. IsUtf8 rest.now)) }
{
    let Some((number, rest)) = quick_decimal(text) else {
        return Ok(None);
    };
    if !is_of_bytes(number, width) {
        return Ok(None);
    }
    args.push(Value::Bits(u128::from(number)))?;
    Ok(Some(rest))
}
