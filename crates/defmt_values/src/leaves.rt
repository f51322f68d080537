//! Tests of values inside which no values stand, by their slots.
ghost use Rattle.std.specs.Prelude.{◌≡◌};
ghost use Rattle.defmt_values.specs.Scan.{test, uint_cause, int_cause, flag_cause, char_cause, str_cause, istr_cause, bytes_cause, bits_cause, float_cause, node_cause, list_cause, count_cause, sequence_cause, leaf_cause};
ghost use Rattle.defmt_values.specs.View.{plain};

use crate::cause::{KIND, NO_ENTRY, RANGE};
use crate::entries::{is_interned, look_up};
use crate::numbers::{float_bits, is_below, is_multiple, is_of_bits, is_signed, size_bits};
use crate::value::Value;
use defmt_grammar::{Kind, Slot};
use defmt_intern::Table;

pub(crate) fn test(holds: bool, cause: u8) -> Result<(), u8>
    ensures { result ≡ test holds cause }
{
    if holds { Ok(()) } else { Err(cause) }
}

fn check_uint(slot: Slot, n: u128) -> Result<(), u8>
    ensures { result ≡ uint_cause slot n }
{
    match slot {
        Slot::One(Kind::Uint(size)) => test(is_of_bits(n, size_bits(size)), RANGE),
        _ => Err(KIND),
    }
}

fn check_int(slot: Slot, n: i128) -> Result<(), u8>
    ensures { result ≡ int_cause slot n }
{
    match slot {
        Slot::One(Kind::Int(size)) => test(is_signed(n, size_bits(size)), RANGE),
        _ => Err(KIND),
    }
}

fn check_flag(slot: Slot) -> Result<(), u8>
    ensures { result ≡ flag_cause slot }
{
    match slot {
        Slot::One(Kind::Bool) => Ok(()),
        _ => Err(KIND),
    }
}

fn check_char(slot: Slot) -> Result<(), u8>
    ensures { result ≡ char_cause slot }
{
    match slot {
        Slot::One(Kind::Char) => Ok(()),
        _ => Err(KIND),
    }
}

fn check_str(slot: Slot) -> Result<(), u8>
    ensures { result ≡ str_cause slot }
{
    match slot {
        Slot::One(Kind::Str | Kind::Debug | Kind::Display) => Ok(()),
        _ => Err(KIND),
    }
}

fn check_istr(table: &Table, slot: Slot, index: u16) -> Result<(), u8>
    ensures { result ≡ istr_cause table.now.entries slot index }
{
    match slot {
        Slot::One(Kind::Istr) => match look_up(table, index) {
            Some((entry, _)) => test(is_interned(&entry.tag), NO_ENTRY),
            None => Err(NO_ENTRY),
        },
        _ => Err(KIND),
    }
}

fn check_bytes(slot: Slot, count: usize) -> Result<(), u8>
    ensures { result ≡ bytes_cause slot count }
{
    match slot {
        Slot::One(Kind::Bytes) => Ok(()),
        Slot::One(Kind::ByteArray(n)) => test(count == usize::from(n), RANGE),
        _ => Err(KIND),
    }
}

fn check_bits(slot: Slot, n: u128) -> Result<(), u8>
    ensures { result ≡ bits_cause slot n }
{
    match slot {
        Slot::Bits { first, width } => {
            let end = u32::from(first) + u32::from(width);
            test(is_below(n, end) && is_multiple(n, u32::from(first)), RANGE)
        }
        _ => Err(KIND),
    }
}

fn check_float(slot: Slot, n: u64) -> Result<(), u8>
    ensures { result ≡ float_cause slot n }
{
    match slot {
        Slot::One(Kind::Float(size)) => test(is_of_bits(u128::from(n), float_bits(size)), RANGE),
        _ => Err(KIND),
    }
}

pub(crate) fn check_node(slot: Slot) -> Result<(), u8>
    ensures { result ≡ node_cause slot }
{
    match slot {
        Slot::One(Kind::Format) => Ok(()),
        _ => Err(KIND),
    }
}

pub(crate) fn check_list(slot: Slot) -> Result<(), u8>
    ensures { result ≡ list_cause slot }
{
    match slot {
        Slot::One(Kind::FormatSlice | Kind::FormatArray(_)) => Ok(()),
        _ => Err(KIND),
    }
}

pub(crate) fn check_count(slot: Slot, count: usize) -> Result<(), u8>
    ensures { result ≡ count_cause slot count }
{
    match slot {
        Slot::One(Kind::FormatArray(n)) => test(count == usize::from(n), RANGE),
        _ => Ok(()),
    }
}

pub(crate) fn check_sequence(slot: Slot) -> Result<(), u8>
    ensures { result ≡ sequence_cause slot }
{
    match slot {
        Slot::One(Kind::Sequence) => Ok(()),
        _ => Err(KIND),
    }
}

// Tests a value without values inside by its slot.
pub(crate) fn check_leaf(table: &Table, slot: Slot, value: &Value) -> Result<(), u8>
    ensures { result ≡ leaf_cause table.now.entries slot (plain value.now) }
{
    match value {
        Value::Uint(n) => check_uint(slot, *n),
        Value::Int(n) => check_int(slot, *n),
        Value::Bool(_) => check_flag(slot),
        Value::Char(_) => check_char(slot),
        Value::Str(_) => check_str(slot),
        Value::Istr(index) => check_istr(table, slot, *index),
        Value::Bytes(bytes) => check_bytes(slot, bytes.len()),
        Value::Bits(n) => check_bits(slot, *n),
        Value::Float(n) => check_float(slot, *n),
        Value::Format(_) | Value::Seq(_) | Value::Sequence(_) => Ok(()),
    }
}
