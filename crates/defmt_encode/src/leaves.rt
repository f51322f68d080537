//! Values inside which no values stand, read from the bytes of a message.
ghost use Rattle.std.specs.Prelude.{◌≡◌, ◌≤◌, ◌<◌, ◌+◌, ◌^◌, ◌*◌, Option, ℕ};
ghost use Rattle.defmt_grammar.specs.Slots.{IsSound};
ghost use Rattle.defmt_encode.specs.Read.{istr_at, uint_at, int_at, flag_at, char_at, str_at, float_at, shown_at, slice_at, array_at, window_at, slot_at, below, OneAt};
ghost use Rattle.defmt_encode.specs.Reads.{ReadsVal, IsLeaf};

use crate::cause::{Cause, Fault};
use crate::field::{
    byte, float, index, number, read_array, read_bytes, read_shown_text, read_text, signed, word,
};
use crate::forms::interned;
use crate::widths::size_bytes;
use defmt_grammar::{FloatSize, IntSize, Kind, Slot};
use defmt_intern::Table;
use defmt_values::{Value, power};
use std::alloc::Global;

// A number with so many zero bytes below it.
fn moved_up(n: u128, first: u8, width: u8) -> u128
    requires { (n < 256 ^ width) × (first + width ≤ 16) }
    ensures { result ≡ n * 256 ^ first }
{
    match power(u32::from(first)) {
        Some(p) => n * p,
        None => 0,
    }
}

fn read_uint(size: IntSize, sum: u128, bytes: &[u8]) -> Result<(Value, u128, &[u8]), Fault>
    ensures { ReadsVal result (uint_at size sum bytes.now) }
{
    let (n, rest) = number(bytes, size_bytes(size))?;
    Ok((Value::Uint(n), sum, rest))
}

fn read_int(size: IntSize, sum: u128, bytes: &[u8]) -> Result<(Value, u128, &[u8]), Fault>
    ensures { ReadsVal result (int_at size sum bytes.now) }
{
    let (n, rest) = signed(bytes, size_bytes(size))?;
    Ok((Value::Int(n), sum, rest))
}

fn read_bool(sum: u128, bytes: &[u8]) -> Result<(Value, u128, &[u8]), Fault>
    ensures { ReadsVal result (flag_at sum bytes.now) }
{
    let (n, rest) = byte(bytes)?;
    match n {
        0 => Ok((Value::Bool(false), sum, rest)),
        1 => Ok((Value::Bool(true), sum, rest)),
        _ => Err(Fault::Bad(Cause::BadBool)),
    }
}

fn read_char(sum: u128, bytes: &[u8]) -> Result<(Value, u128, &[u8]), Fault>
    ensures { ReadsVal result (char_at sum bytes.now) }
{
    let (n, rest) = word(bytes)?;
    match char::from_u32(n) {
        Some(c) => Ok((Value::Char(c), sum, rest)),
        None => Err(Fault::Bad(Cause::BadChar)),
    }
}

fn read_str(alloc: Global, sum: u128, bytes: &[u8]) -> Result<(Value, u128, &[u8]), Fault>
    ensures { ReadsVal result (str_at sum bytes.now) }
{
    let (text, rest) = read_text(alloc, bytes)?;
    Ok((Value::Str(text), sum, rest))
}

fn read_istr<'b>(
    table: &Table,
    sum: u128,
    bytes: &'b [u8],
) -> Result<(Value, u128, &'b [u8]), Fault>
    ensures { ReadsVal result (istr_at table.now.entries sum bytes.now) }
{
    let (index, rest) = index(bytes)?;
    interned(table, index)?;
    Ok((Value::Istr(index), sum, rest))
}

fn read_float(size: FloatSize, sum: u128, bytes: &[u8]) -> Result<(Value, u128, &[u8]), Fault>
    ensures { ReadsVal result (float_at size sum bytes.now) }
{
    let (bits, rest) = float(bytes, size)?;
    Ok((Value::Float(bits), sum, rest))
}

fn read_shown(alloc: Global, sum: u128, bytes: &[u8]) -> Result<(Value, u128, &[u8]), Fault>
    ensures { ReadsVal result (shown_at sum bytes.now) }
{
    let (text, rest) = read_shown_text(alloc, bytes)?;
    Ok((Value::Str(text), sum, rest))
}

fn read_slice(alloc: Global, sum: u128, bytes: &[u8]) -> Result<(Value, u128, &[u8]), Fault>
    ensures { ReadsVal result (slice_at sum bytes.now) }
{
    let (read, rest) = read_bytes(alloc, bytes)?;
    Ok((Value::Bytes(read), sum, rest))
}

fn read_byte_array(
    alloc: Global,
    count: u16,
    sum: u128,
    bytes: &[u8],
) -> Result<(Value, u128, &[u8]), Fault>
    ensures { ReadsVal result (array_at count sum bytes.now) }
{
    let (read, rest) = read_array(alloc, count, bytes)?;
    Ok((Value::Bytes(read), sum, rest))
}

fn read_window(first: u8, width: u8, sum: u128, bytes: &[u8]) -> Result<(Value, u128, &[u8]), Fault>
    requires { first + width ≤ 16 }
    ensures { ReadsVal result (window_at first width sum bytes.now) }
{
    let (n, rest) = number(bytes, width)?;
    Ok((Value::Bits(moved_up(n, first, width)), sum, rest))
}

// A value of a slot inside which no values stand.
pub(crate) fn read_leaf<'b>(
    alloc: Global,
    table: &Table,
    slot: Slot,
    sum: u128,
    bytes: &'b [u8],
) -> Result<(Value, u128, &'b [u8]), Fault>
    requires slot { IsSound slot }
    requires leaf { IsLeaf slot }
    ensures { (below : Option OneAt) (weight : ℕ)
        → ReadsVal result (slot_at table.now.entries below slot weight sum bytes.now) }
{
    match slot {
        Slot::One(Kind::Uint(size)) => read_uint(size, sum, bytes),
        Slot::One(Kind::Int(size)) => read_int(size, sum, bytes),
        Slot::One(Kind::Bool) => read_bool(sum, bytes),
        Slot::One(Kind::Char) => read_char(sum, bytes),
        Slot::One(Kind::Str) => read_str(alloc, sum, bytes),
        Slot::One(Kind::Istr) => read_istr(table, sum, bytes),
        Slot::One(Kind::Bytes) => read_slice(alloc, sum, bytes),
        Slot::One(Kind::ByteArray(count)) => read_byte_array(alloc, count, sum, bytes),
        Slot::One(Kind::Bits { .. }) => Err(Fault::Bad(Cause::Short)),
        Slot::One(Kind::Float(size)) => read_float(size, sum, bytes),
        Slot::One(Kind::Debug | Kind::Display) => read_shown(alloc, sum, bytes),
        Slot::Bits { first, width } => read_window(first, width, sum, bytes),
        Slot::One(Kind::Format | Kind::FormatSlice | Kind::FormatArray(_) | Kind::Sequence) =>
            unreachable!(),
    }
}
