//! Values without values inside.
ghost use Rattle.std.specs.Prelude.{◌≡◌, ◌<◌, ◌≤◌, ◌==◌, ℕ, List, None, length, Result};
ghost use Rattle.defmt_grammar.specs.Slots.{IsSound};
ghost use Rattle.defmt_shapes.specs.Shape.{Shape as AnyShape, SpellsQuoted, SpellsBytes};
ghost use Rattle.defmt_shapes.specs.Spelling.{Tells};
ghost use Rattle.defmt_spelling.specs.Leaves.{empty_cause, sum_or};
ghost use Rattle.defmt_spelling.specs.Meaning.{index_of, meant_val};
ghost use Rattle.defmt_spelling.specs.Reading.{GivesLeaf, GivesIndex, GivesValue, IsLeaf, SmallValue, Tests};
ghost use Rattle.defmt_values.specs.Entries.{look};
ghost use Rattle.defmt_values.specs.Plain.{Val, flag, char, str, istr, bytes, seq, no_elems};
ghost use Rattle.defmt_values.specs.Scan.{flag_cause, char_cause, str_cause, istr_cause, bytes_cause, interned_of, scan_val};

use crate::fault::{ArgFault, Cause};
use crate::names::Names;
use crate::numbers::{digits_value, float_value, hexadecimal_value, signed_value};
use defmt_grammar::{Kind, Slot};
use defmt_intern::{Table, Tag};
use defmt_shapes::{Spelling, bytes_of, unescape};
use defmt_values::{Items, Seq, Value, look_up};
use std::alloc::Global;

/// The index of a name; 5 where the name isn't there.
pub fn index_of(names: &Names, name: &str) -> Result<u16, ArgFault>
    ensures { GivesIndex names.now name.now result }
{
    match names.get(name) {
        Some(index) => Ok(index),
        None => Err(Cause::NoEntry.into()),
    }
}

// A truth value.
fn flag_value(slot: Slot, value: bool) -> Result<Value, ArgFault>
    ensures { GivesLeaf result (flag value) (flag_cause slot) }
{
    match slot {
        Slot::One(Kind::Bool) => Ok(Value::Bool(value)),
        _ => Err(Cause::Kind.into()),
    }
}

// A character.
fn char_value(slot: Slot, character: char) -> Result<Value, ArgFault>
    ensures { GivesLeaf result (char character) (char_cause slot) }
{
    match slot {
        Slot::One(Kind::Char) => Ok(Value::Char(character)),
        _ => Err(Cause::Kind.into()),
    }
}

fn check_str(slot: Slot) -> Result<(), ArgFault>
    ensures { Tests (str_cause slot) result }
{
    match slot {
        Slot::One(Kind::Str | Kind::Debug | Kind::Display) => Ok(()),
        _ => Err(Cause::Kind.into()),
    }
}

// A text, from what stands between its quotes.
fn str_value(alloc: Global, slot: Slot, inside: &str) -> Result<Value, ArgFault>
    ensures { (s : List ℕ) → SpellsQuoted inside.now s → GivesLeaf result (str s) (str_cause slot) }
{
    check_str(slot)?;
    let text = unescape(alloc, inside)?;
    Ok(Value::Str(text))
}

fn is_interned(table: &Table, index: u16) -> bool
    ensures { result ≡ interned_of (look table.now.entries index) }
{
    match look_up(table, index) {
        Some((entry, _)) => matches!(entry.tag, Tag::Interned),
        None => false,
    }
}

// An interned text of this name.
fn istr_value(names: &Names, table: &Table, slot: Slot, name: &str) -> Result<Value, ArgFault>
    ensures { GivesLeaf result (istr (index_of names.now name.now))
        (istr_cause table.now.entries slot (index_of names.now name.now)) }
{
    match slot {
        Slot::One(Kind::Istr) => {
            let index = index_of(names, name)?;
            if is_interned(table, index) {
                Ok(Value::Istr(index))
            } else {
                Err(Cause::NoEntry.into())
            }
        }
        _ => Err(Cause::Kind.into()),
    }
}

// Bytes, from their hexadecimal digits.
fn bytes_value(alloc: Global, slot: Slot, digits: &str) -> Result<Value, ArgFault>
    ensures { (s : List ℕ) → SpellsBytes digits.now s
        → GivesLeaf result (bytes s) (bytes_cause slot (length s)) }
{
    match slot {
        Slot::One(Kind::Bytes) => Ok(Value::Bytes(bytes_of(alloc, digits)?)),
        Slot::One(Kind::ByteArray(n)) => {
            let bytes = bytes_of(alloc, digits)?;
            if bytes.len() == usize::from(n) {
                Ok(Value::Bytes(bytes))
            } else {
                Err(Cause::Range.into())
            }
        }
        _ => Err(Cause::Kind.into()),
    }
}

// A list without elements.
fn empty_value(alloc: Global, slot: Slot) -> Result<Value, ArgFault>
    ensures { GivesLeaf result (seq None no_elems) (empty_cause slot) }
{
    match slot {
        Slot::One(Kind::FormatSlice | Kind::FormatArray(0)) => Ok(Value::Seq(Seq {
            index: None,
            items: Items::new(alloc),
        })),
        Slot::One(Kind::FormatArray(_)) => Err(Cause::Range.into()),
        _ => Err(Cause::Kind.into()),
    }
}

// A value without weight, and the sum in front of it.
fn paired(leaf: Result<Value, ArgFault>, sum: usize) -> Result<(Value, usize), ArgFault>
    requires { sum ≤ 8192 }
    ensures value { (v : Val) (cause : Result (Unit {0}) ℕ) → GivesLeaf leaf v cause
        → GivesValue result v (sum_or cause sum) }
    ensures small { SmallValue result }
{
    let value = leaf?;
    Ok((value, sum))
}

/// A value without values inside, and the sum in front of it.
pub fn read_leaf(
    alloc: Global,
    names: &Names,
    table: &Table,
    slot: Slot,
    sum: usize,
    spelling: Spelling<'_>,
) -> Result<(Value, usize), ArgFault>
    requires sum { sum ≤ 8192 }
    requires sound { IsSound slot }
    requires leaf { IsLeaf spelling }
    ensures value { (left weight : ℕ) (s : AnyShape)
        → Tells table.now.entries.language spelling.entry s
        → GivesValue result (meant_val names.now table.now.entries slot s)
        (scan_val table.now.entries left slot weight sum
        (meant_val names.now table.now.entries slot s)) }
    ensures small { SmallValue result }
{
    match spelling {
        Spelling::Decimal(n, digits) => paired(digits_value(slot, n, digits), sum),
        Spelling::Hexadecimal(n) => paired(hexadecimal_value(slot, n), sum),
        Spelling::Negative(n, digits) => paired(signed_value(slot, n, digits), sum),
        Spelling::Flag(value) => paired(flag_value(slot, value), sum),
        Spelling::Character(character) => paired(char_value(slot, character), sum),
        Spelling::Quoted(inside) => paired(str_value(alloc, slot, inside), sum),
        Spelling::Interned(name) => paired(istr_value(names, table, slot, name), sum),
        Spelling::Bytes(digits) => paired(bytes_value(alloc, slot, digits), sum),
        Spelling::Empty => paired(empty_value(alloc, slot), sum),
        Spelling::Float(text) => paired(float_value(slot, text), sum),
        Spelling::Call { .. } | Spelling::Sequence { .. } | Spelling::Nodes(_) => unreachable!(),
    }
}
