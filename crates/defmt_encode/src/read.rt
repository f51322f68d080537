//! Values read from the bytes of a message.
ghost use Rattle.std.specs.Prelude.{◌≤◌, length};
ghost use Rattle.defmt_grammar.specs.Slots.{IsSound};
ghost use Rattle.defmt_values.specs.Entries.{places_of};
ghost use Rattle.defmt_encode.specs.Read.{each_at, elem_at, elems_at, indexed_at, node_at, list_at, some_at, member_at, nodes_at, slot_at, value_at, below};
ghost use Rattle.defmt_encode.specs.Reads.{ReadsVal, ReadsVals, ReadsElem, ReadsElems, ReadsNodes, with_vals};

use crate::cause::{Cause, Fault};
use crate::field::{index, word};
use crate::forms::{form_for, variant_of};
use crate::leaves::read_leaf;
use crate::weights::add;
use defmt_grammar::{Kind, Pieces, Slot};
use defmt_intern::{Parsed, Table};
use defmt_values::{Args, Item, Items, Node, Nodes, Seq, Value, cut};
use std::alloc::Global;

// A value of a slot. At most `left` levels of Format values may still be opened.
#[cycle(read)]
fn read_value<'b>(
    alloc: Global,
    table: &Table,
    slot: Slot,
    left: u8,
    weight: u128,
    sum: u128,
    bytes: &'b [u8],
) -> Result<(Value, u128, &'b [u8]), Fault>
    requires { IsSound slot }
    ensures { ReadsVal result
        (slot_at table.now.entries (below table.now.entries left) slot weight sum bytes.now) }
{
    match slot {
        Slot::One(Kind::Format) => {
            if left == 0 {
                return Err(Fault::Bad(Cause::Deep));
            }
            read_node(alloc, table, left - 1, weight, sum, bytes)
        }
        Slot::One(Kind::FormatSlice) => {
            let (count, rest) = word(bytes)?;
            read_some(alloc, table, left, count, weight, sum, rest)
        }
        Slot::One(Kind::FormatArray(count)) => {
            let count = u32::from(count);
            read_some(alloc, table, left, count, weight, sum, bytes)
        }
        Slot::One(Kind::Sequence) => {
            let (nodes, sum, rest) = read_nodes(alloc, table, left, weight, sum, bytes)?;
            Ok((Value::Sequence(nodes), sum, rest))
        }
        leaf => read_leaf(alloc, table, leaf, sum, bytes),
    }
}

// A Format value, inside which `left` levels may be opened.
#[cycle(read)]
fn read_node<'b>(
    alloc: Global,
    table: &Table,
    left: u8,
    weight: u128,
    sum: u128,
    bytes: &'b [u8],
) -> Result<(Value, u128, &'b [u8]), Fault>
    ensures { ReadsVal result
        (node_at table.now.entries (value_at table.now.entries left) weight sum bytes.now) }
{
    let (index, rest) = index(bytes)?;
    let (item, sum, rest) = read_indexed(alloc, table, index, left, weight, sum, rest)?;
    let Item { variant, args } = item;
    Ok((
        Value::Format(Node {
            index,
            variant,
            args,
        }),
        sum,
        rest,
    ))
}

// Behind its index, the variant and the arguments of a Format value, inside which `left` levels may be opened.
#[cycle(read)]
fn read_indexed<'b>(
    alloc: Global,
    table: &Table,
    index: u16,
    left: u8,
    weight: u128,
    sum: u128,
    bytes: &'b [u8],
) -> Result<(Item, u128, &'b [u8]), Fault>
    ensures { ReadsElem result (indexed_at table.now.entries
        (value_at table.now.entries left) index weight sum bytes.now) }
{
    let form = form_for(table, index)?;
    read_item(alloc, table, form, left, weight, sum, bytes)
}

// A list of so many elements.
#[cycle(read)]
fn read_some<'b>(
    alloc: Global,
    table: &Table,
    left: u8,
    count: u32,
    weight: u128,
    sum: u128,
    bytes: &'b [u8],
) -> Result<(Value, u128, &'b [u8]), Fault>
    ensures { ReadsVal result
        (some_at table.now.entries (below table.now.entries left) count weight sum bytes.now) }
{
    if count == 0 {
        let none = Seq {
            index: None,
            items: Items::new(alloc),
        };
        return Ok((Value::Seq(none), sum, bytes));
    }
    if left == 0 {
        return Err(Fault::Bad(Cause::Deep));
    }
    read_list(alloc, table, left - 1, count, weight, sum, bytes)
}

// A list that has elements.
#[cycle(read)]
fn read_list<'b>(
    alloc: Global,
    table: &Table,
    left: u8,
    count: u32,
    weight: u128,
    sum: u128,
    bytes: &'b [u8],
) -> Result<(Value, u128, &'b [u8]), Fault>
    ensures { ReadsVal result
        (list_at table.now.entries (value_at table.now.entries left) count weight sum bytes.now) }
{
    let (index, rest) = index(bytes)?;
    let form = form_for(table, index)?;
    let (items, sum, rest) = read_items(alloc, table, form, left, count, weight, sum, rest)?;
    Ok((
        Value::Seq(Seq {
            index: Some(index),
            items,
        }),
        sum,
        rest,
    ))
}

// The values of a text's arguments, in a text that has this weight, read into a list in place of what it had.
#[cycle(read)]
pub(crate) fn read_into<'b>(
    alloc: Global,
    table: &Table,
    pieces: &Pieces,
    left: u8,
    weight: u128,
    sum: u128,
    bytes: &'b [u8],
    args: &mut Args,
) -> Result<(u128, &'b [u8]), Fault>
    requires { weight ≤ 8192 }
    ensures { ReadsVals (with_vals args.new result)
        (each_at (value_at table.now.entries left) (places_of pieces.now) weight sum bytes.now) }
{
    args.clear();
    let mut slots = pieces.slots();
    let mut position = 0u8;
    let mut total = sum;
    let mut rest = bytes;
    'each: while let Some((slot, others)) = cut(slots) {
        let weight_there = pieces.uses(position) as u128 * weight;
        let (value, after_sum, after) = read_value(
            alloc,
            table,
            *slot,
            left,
            weight_there,
            total,
            rest,
        )?;
        args.push(value)?;
        slots = others;
        position += 1;
        total = after_sum;
        rest = after;
    }
    Ok((total, rest))
}

// The elements of a list, which are pushed one by one.
#[cycle(read)]
fn read_items<'b>(
    alloc: Global,
    table: &Table,
    form: &Parsed,
    left: u8,
    count: u32,
    weight: u128,
    sum: u128,
    bytes: &'b [u8],
) -> Result<(Items, u128, &'b [u8]), Fault>
    ensures { ReadsElems result
        (elems_at (value_at table.now.entries left) form.now count weight sum bytes.now) }
{
    let mut items = Items::new(alloc);
    let mut total = sum;
    let mut rest = bytes;
    'each: for _ in 0..count {
        let (item, after_sum, after) = read_item(alloc, table, form, left, weight, total, rest)?;
        items.push(item)?;
        total = after_sum;
        rest = after;
    }
    Ok((items, total, rest))
}

// An element: its variant and its arguments.
#[cycle(read)]
fn read_item<'b>(
    alloc: Global,
    table: &Table,
    form: &Parsed,
    left: u8,
    weight: u128,
    sum: u128,
    bytes: &'b [u8],
) -> Result<(Item, u128, &'b [u8]), Fault>
    ensures { ReadsElem result
        (elem_at (value_at table.now.entries left) form.now weight sum bytes.now) }
{
    let sum = add(weight, sum)?;
    let (variant, pieces, rest) = variant_of(form, bytes)?;
    let mut args = Args::new(alloc);
    let (sum, rest) = read_into(alloc, table, pieces, left, weight, sum, rest, &mut args)?;
    Ok((Item { variant, args }, sum, rest))
}

// The elements of a sequence and the index 0 behind them. There are fewer of them than bytes.
#[cycle(read)]
fn read_nodes<'b>(
    alloc: Global,
    table: &Table,
    left: u8,
    weight: u128,
    sum: u128,
    bytes: &'b [u8],
) -> Result<(Nodes, u128, &'b [u8]), Fault>
    ensures { ReadsNodes result (nodes_at table.now.entries
        (below table.now.entries left) (length bytes.now) weight sum bytes.now) }
{
    let mut nodes = Nodes::new(alloc);
    let mut total = sum;
    let mut rest = bytes;
    'each: for _ in 0..bytes.len() {
        let (index, behind) = index(rest)?;
        if index == 0 {
            return Ok((nodes, total, behind));
        }
        let (item, after_sum, after) = read_member(
            alloc, table, index, left, weight, total, behind,
        )?;
        let Item { variant, args } = item;
        nodes.push(Node {
            index,
            variant,
            args,
        })?;
        total = after_sum;
        rest = after;
    }
    Err(Fault::Bad(Cause::Short))
}

// An element of a sequence behind its index. At most `left` levels of Format values may still be opened.
#[cycle(read)]
fn read_member<'b>(
    alloc: Global,
    table: &Table,
    index: u16,
    left: u8,
    weight: u128,
    sum: u128,
    bytes: &'b [u8],
) -> Result<(Item, u128, &'b [u8]), Fault>
    ensures { ReadsElem result (member_at table.now.entries
        (below table.now.entries left) index weight sum bytes.now) }
{
    if left == 0 {
        return Err(Fault::Bad(Cause::Deep));
    }
    read_indexed(alloc, table, index, left - 1, weight, sum, bytes)
}
