//! The bytes of values, put one after another.
ghost use Rattle.std.specs.Prelude.{◌≤◌, ◌++◌, ◌/◌, ◌^◌, ◌∷◌, [], length};
ghost use Rattle.byteorder.specs.Endian.{little_bytes};
ghost use Rattle.defmt_encode.specs.Carry.{text_end, text_bytes, length_bytes, window_width, window_first, variant_byte, count_bytes, index_bytes, node_slots, bytes_val, bytes_vals, bytes_elems, bytes_nodes};
ghost use Rattle.defmt_encode.specs.Out.{Puts};
ghost use Rattle.defmt_values.specs.Plain.{elems_len};
ghost use Rattle.defmt_values.specs.Scan.{index_or};
ghost use Rattle.defmt_values.specs.View.{plain};

use crate::put::{Long, TEXT_END, put, put_chunk, put_number};
use crate::slots::node_slots;
use crate::widths::{float_width, int_width, shifted, uint_width, window_first};
use defmt_grammar::{Kind, Slot};
use defmt_intern::Table;
use defmt_values::{Args, Item, Items, Node, Nodes, Seq, Value, cut};

/// Puts the bytes of a text behind the first `at` of a message, their number in four bytes in front. The buffer has at least 2,000 bytes, of
/// which `at` are put. Answers how many are put then, or `Long` where these would be more than 2,000: then some of the first are put, or
/// none, and all else is as before. Takes no memory.
pub fn put_text(out: &mut [u8], at: usize, bytes: &[u8]) -> Result<usize, Long>
    requires { (2000 ≤ length out.old) × (at ≤ 2000) }
    ensures { Puts out.old out.new at result (little_bytes 4 (length bytes.now) ++ bytes.now) }
{
    let at = put_number(out, at, bytes.len() as u128, 4)?;
    put_chunk(out, at, bytes)
}

/// Puts bytes behind the first `at` of a message, their number in four bytes in front where the slot isn't a byte array's. The buffer has at least 2,000 bytes, of
/// which `at` are put. Answers how many are put then, or `Long` where these would be more than 2,000: then some of the first are put, or
/// none, and all else is as before. Takes no memory.
pub fn put_slice(out: &mut [u8], at: usize, slot: Slot, bytes: &[u8]) -> Result<usize, Long>
    requires { (2000 ≤ length out.old) × (at ≤ 2000) }
    ensures { Puts out.old out.new at result (length_bytes slot (length bytes.now) ++ bytes.now) }
{
    match slot {
        Slot::One(Kind::Bytes) => put_text(out, at, bytes),
        _ => put_chunk(out, at, bytes),
    }
}

// A text and its end.
fn put_ended(out: &mut [u8], at: usize, bytes: &[u8]) -> Result<usize, Long>
    requires { (2000 ≤ length out.old) × (at ≤ 2000) }
    ensures { Puts out.old out.new at result (bytes.now ++ text_end ∷ []) }
{
    let at = put_chunk(out, at, bytes)?;
    put(out, at, TEXT_END)
}

fn put_str(out: &mut [u8], at: usize, slot: Slot, bytes: &[u8]) -> Result<usize, Long>
    requires { (2000 ≤ length out.old) × (at ≤ 2000) }
    ensures { Puts out.old out.new at result (text_bytes slot bytes.now) }
{
    match slot {
        Slot::One(Kind::Debug | Kind::Display) => put_ended(out, at, bytes),
        _ => put_text(out, at, bytes),
    }
}

fn put_window(out: &mut [u8], at: usize, slot: Slot, n: u128) -> Result<usize, Long>
    requires { (2000 ≤ length out.old) × (at ≤ 2000) }
    ensures { Puts out.old out.new at result
        (little_bytes (window_width slot) (n / 256 ^ window_first slot)) }
{
    match slot {
        Slot::Bits { first, width } => put_number(out, at, shifted(n, first), width),
        _ => Ok(at),
    }
}

fn put_variant(out: &mut [u8], at: usize, variant: Option<u8>) -> Result<usize, Long>
    requires { (2000 ≤ length out.old) × (at ≤ 2000) }
    ensures { Puts out.old out.new at result (variant_byte variant) }
{
    match variant {
        None => Ok(at),
        Some(v) => put(out, at, v),
    }
}

fn put_head(out: &mut [u8], at: usize, index: u16, variant: Option<u8>) -> Result<usize, Long>
    requires { (2000 ≤ length out.old) × (at ≤ 2000) }
    ensures { Puts out.old out.new at result (little_bytes 2 index ++ variant_byte variant) }
{
    let at = put_number(out, at, u128::from(index), 2)?;
    put_variant(out, at, variant)
}

fn put_count(out: &mut [u8], at: usize, slot: Slot, count: usize) -> Result<usize, Long>
    requires { (2000 ≤ length out.old) × (at ≤ 2000) }
    ensures { Puts out.old out.new at result (count_bytes slot count) }
{
    match slot {
        Slot::One(Kind::FormatSlice) => put_number(out, at, count as u128, 4),
        _ => Ok(at),
    }
}

fn put_index(out: &mut [u8], at: usize, index: Option<u16>) -> Result<usize, Long>
    requires { (2000 ≤ length out.old) × (at ≤ 2000) }
    ensures { Puts out.old out.new at result (index_bytes index) }
{
    match index {
        None => Ok(at),
        Some(index) => put_number(out, at, u128::from(index), 2),
    }
}

fn put_list_head(
    out: &mut [u8],
    at: usize,
    slot: Slot,
    count: usize,
    index: Option<u16>,
) -> Result<usize, Long>
    requires { (2000 ≤ length out.old) × (at ≤ 2000) }
    ensures { Puts out.old out.new at result (count_bytes slot count ++ index_bytes index) }
{
    let at = put_count(out, at, slot, count)?;
    put_index(out, at, index)
}

/// Puts the bytes of one value of a slot behind the first `at` of a message (defmt book, "Serialization"). The buffer has at least 2,000 bytes, of
/// which `at` are put. Answers how many are put then, or `Long` where these would be more than 2,000: then some of the first are put, or
/// none, and all else is as before. Takes no memory.
#[cycle(put)]
#[tactic(auto, unfolding(crate::specs::Carry::bytes_val))]
pub fn put_value(
    table: &Table,
    slot: Slot,
    value: &Value,
    out: &mut [u8],
    at: usize,
) -> Result<usize, Long>
    requires { (2000 ≤ length out.old) × (at ≤ 2000) }
    ensures { Puts out.old out.new at result (bytes_val table.now.entries slot (plain value.now)) }
{
    match value {
        Value::Uint(n) => put_number(out, at, *n, uint_width(slot)),
        Value::Int(n) => put_number(out, at, n.cast_unsigned(), int_width(slot)),
        Value::Bool(b) => put(out, at, u8::from(*b)),
        Value::Char(c) => put_number(out, at, u128::from(u32::from(*c)), 4),
        Value::Str(text) => put_str(out, at, slot, text.as_str().as_bytes()),
        Value::Istr(index) => put_number(out, at, u128::from(*index), 2),
        Value::Bytes(bytes) => put_slice(out, at, slot, bytes.as_slice()),
        Value::Bits(n) => put_window(out, at, slot, *n),
        Value::Format(node) => put_node(table, node, out, at),
        Value::Seq(seq) => put_seq(table, slot, seq, out, at),
        Value::Float(bits) => put_number(out, at, u128::from(*bits), float_width(slot)),
        Value::Sequence(nodes) => put_sequence(table, nodes, out, at),
    }
}

/// Puts the bytes of the values of slots behind the first `at` of a message, one after another. The buffer has at least 2,000 bytes, of
/// which `at` are put. Answers how many are put then, or `Long` where these would be more than 2,000: then some of the first are put, or
/// none, and all else is as before. Takes no memory.
#[cycle(put)]
pub fn put_args(
    table: &Table,
    slots: &[Slot],
    args: &Args,
    out: &mut [u8],
    at: usize,
) -> Result<usize, Long>
    requires { (2000 ≤ length out.old) × (at ≤ 2000) }
    ensures { Puts out.old out.new at result (bytes_vals table.now.entries slots.now args.now) }
{
    let mut values = args.as_slice();
    let mut slots_left = slots;
    let mut end = at;
    'each: while let Some((value, more)) = cut(values) {
        let Some((slot, others)) = cut(slots_left) else {
            return Ok(end);
        };
        end = put_value(table, *slot, value, out, end)?;
        values = more;
        slots_left = others;
    }
    Ok(end)
}

#[cycle(put)]
fn put_item(
    table: &Table,
    index: u16,
    item: &Item,
    out: &mut [u8],
    at: usize,
) -> Result<usize, Long>
    requires { (2000 ≤ length out.old) × (at ≤ 2000) }
    ensures { Puts out.old out.new at result
        (variant_byte item.now.variant
        ++ bytes_vals table.now.entries
        (node_slots table.now.entries index item.now.variant) item.now.args) }
{
    let at = put_variant(out, at, item.variant)?;
    put_args(
        table,
        node_slots(table, index, item.variant),
        &item.args,
        out,
        at,
    )
}

#[cycle(put)]
fn put_items(
    table: &Table,
    index: u16,
    items: &Items,
    out: &mut [u8],
    at: usize,
) -> Result<usize, Long>
    requires { (2000 ≤ length out.old) × (at ≤ 2000) }
    ensures { Puts out.old out.new at result (bytes_elems table.now.entries index items.now) }
{
    let mut rest = items.as_slice();
    let mut end = at;
    'each: while let Some((item, more)) = cut(rest) {
        end = put_item(table, index, item, out, end)?;
        rest = more;
    }
    Ok(end)
}

// A list: its head and its elements. Few statements have values inside values, so these are put by a call.
#[cycle(put)]
#[inline(never)]
fn put_seq(table: &Table, slot: Slot, seq: &Seq, out: &mut [u8], at: usize) -> Result<usize, Long>
    requires { (2000 ≤ length out.old) × (at ≤ 2000) }
    ensures { Puts out.old out.new at result
        ((count_bytes slot (elems_len seq.now.items) ++ index_bytes seq.now.index)
        ++ bytes_elems table.now.entries (index_or seq.now.index) seq.now.items) }
{
    let at = put_list_head(out, at, slot, seq.items.len(), seq.index)?;
    put_items(table, seq.index.unwrap_or(0), &seq.items, out, at)
}

// A Format value: its index, its variant where it has one, and its arguments.
#[cycle(put)]
#[inline(never)]
fn put_node(table: &Table, node: &Node, out: &mut [u8], at: usize) -> Result<usize, Long>
    requires { (2000 ≤ length out.old) × (at ≤ 2000) }
    ensures { Puts out.old out.new at result
        ((little_bytes 2 node.now.index ++ variant_byte node.now.variant)
        ++ bytes_vals table.now.entries
        (node_slots table.now.entries node.now.index node.now.variant) node.now.args) }
{
    let at = put_head(out, at, node.index, node.variant)?;
    put_args(
        table,
        node_slots(table, node.index, node.variant),
        &node.args,
        out,
        at,
    )
}

#[cycle(put)]
fn put_nodes(table: &Table, nodes: &Nodes, out: &mut [u8], at: usize) -> Result<usize, Long>
    requires { (2000 ≤ length out.old) × (at ≤ 2000) }
    ensures { Puts out.old out.new at result (bytes_nodes table.now.entries nodes.now) }
{
    let mut rest = nodes.as_slice();
    let mut end = at;
    'each: while let Some((node, more)) = cut(rest) {
        end = put_node(table, node, out, end)?;
        rest = more;
    }
    Ok(end)
}

// A sequence: its elements and the index that ends it.
#[cycle(put)]
#[inline(never)]
fn put_sequence(table: &Table, nodes: &Nodes, out: &mut [u8], at: usize) -> Result<usize, Long>
    requires { (2000 ≤ length out.old) × (at ≤ 2000) }
    ensures { Puts out.old out.new at result
        (bytes_nodes table.now.entries nodes.now ++ little_bytes 2 0) }
{
    let at = put_nodes(table, nodes, out, at)?;
    put_number(out, at, 0, 2)
}
