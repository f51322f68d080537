//! Values, and the values inside of them.
ghost use Rattle.std.specs.Prelude.{◌≡◌, ◌≤◌, ℕ, Option, Ok, IfOk};
ghost use Rattle.defmt_grammar.specs.Slots.{IsSound};
ghost use Rattle.defmt_shapes.specs.Shape.{Shape as AnyShape, Shapes, Items as AnyItems, call, sequence, SpellsShapes, SpellsItems, StartsThere};
ghost use Rattle.defmt_shapes.specs.Spelling.{Tells, HoldsVariant};
ghost use Rattle.defmt_spelling.specs.Meaning.{meant_val, meant_elems};
ghost use Rattle.defmt_spelling.specs.Reading.{GivesValue, GivesElems, GivesItem, item_scan, meant_inside, SmallValue, SpellsSome};
ghost use Rattle.defmt_values.specs.Scan.{form_at, scan_val, scan_elems};

use crate::fault::ArgFault;
use crate::forms::{add, check_count, check_list, check_node, find_form, find_pieces};
use crate::leaves::read_leaf;
use crate::names::Names;
use crate::reading::read_values;
use crate::sequences::read_sequence;
use defmt_grammar::Slot;
use defmt_intern::{Parsed, Table};
use defmt_shapes::{Number, Spelling, first_item, skip_spaces};
use defmt_values::{Item, Items, Node, Seq, Value};
use std::alloc::Global;

/// One value of a slot. At most `left` levels of Format values may still be opened.
#[cycle(read)]
pub fn read_value(
    alloc: Global,
    names: &Names,
    table: &Table,
    slot: Slot,
    left: u8,
    weight: usize,
    sum: usize,
    spelling: Spelling<'_>,
) -> Result<(Value, usize), ArgFault>
    requires sum { sum ≤ 8192 }
    requires sound { IsSound slot }
    ensures value { (s : AnyShape) → Tells table.now.entries.language spelling.entry s
        → GivesValue result (meant_val names.now table.now.entries slot s)
        (scan_val table.now.entries left slot weight sum
        (meant_val names.now table.now.entries slot s)) }
    ensures small { SmallValue result }
{
    match spelling {
        Spelling::Call {
            name,
            variant,
            inside,
        } => read_node(
            alloc, names, table, slot, left, weight, sum, name, variant, inside,
        ),
        Spelling::Sequence { name, inside } => read_list(
            alloc, names, table, slot, left, weight, sum, name, inside,
        ),
        Spelling::Nodes(inside) => read_sequence(
            alloc, names, table, slot, left, weight, sum, inside,
        ),
        leaf => read_leaf(alloc, names, table, slot, sum, leaf),
    }
}

/// A Format value.
#[cycle(read)]
pub fn read_node(
    alloc: Global,
    names: &Names,
    table: &Table,
    slot: Slot,
    left: u8,
    weight: usize,
    sum: usize,
    name: &str,
    variant: Option<Number>,
    inside: &str,
) -> Result<(Value, usize), ArgFault>
    requires sum { sum ≤ 8192 }
    ensures value { (v : Option ℕ) (ss : Shapes) → HoldsVariant variant v
        → SpellsShapes table.now.entries.language inside.now ss
        → GivesValue result (meant_val names.now table.now.entries slot (call name.now v ss))
        (scan_val table.now.entries left slot weight sum
        (meant_val names.now table.now.entries slot (call name.now v ss))) }
    ensures spelled { IfOk result (λ _. SpellsSome table.now.entries.language inside.now) }
    ensures small { SmallValue result }
{
    check_node(slot)?;
    let (index, form) = find_form(names, table, left, name)?;
    let (item, sum) = read_item(
        alloc,
        names,
        table,
        form,
        left - 1,
        weight,
        sum,
        variant,
        inside,
    )?;
    let Item { variant, args } = item;
    Ok((
        Value::Format(Node {
            index,
            variant,
            args,
        }),
        sum,
    ))
}

// A list of some elements.
#[cycle(read)]
fn read_list(
    alloc: Global,
    names: &Names,
    table: &Table,
    slot: Slot,
    left: u8,
    weight: usize,
    sum: usize,
    name: &str,
    inside: &str,
) -> Result<(Value, usize), ArgFault>
    requires sum { sum ≤ 8192 }
    ensures value { (items : AnyItems) → StartsThere inside.now
        → SpellsItems table.now.entries.language inside.now items
        → GivesValue result (meant_val names.now table.now.entries slot (sequence name.now items))
        (scan_val table.now.entries left slot weight sum
        (meant_val names.now table.now.entries slot (sequence name.now items))) }
    ensures small { SmallValue result }
{
    check_list(slot)?;
    let (index, form) = find_form(names, table, left, name)?;
    let (items, sum) = read_items(alloc, names, table, form, left - 1, weight, sum, inside)?;
    check_count(slot, items.len())?;
    Ok((
        Value::Seq(Seq {
            index: Some(index),
            items,
        }),
        sum,
    ))
}

// The elements of a list.
#[cycle(read)]
fn read_items(
    alloc: Global,
    names: &Names,
    table: &Table,
    form: &Parsed,
    left: u8,
    weight: usize,
    sum: usize,
    text: &str,
) -> Result<(Items, usize), ArgFault>
    requires sum { sum ≤ 8192 }
    ensures value { (index : ℕ) (items : AnyItems) → form_at table.now.entries index ≡ Ok form.now
        → SpellsItems table.now.entries.language text.now items
        → GivesElems result (meant_elems names.now table.now.entries index items)
        (scan_elems table.now.entries left form.now weight sum
        (meant_elems names.now table.now.entries index items)) }
    ensures small { SmallValue result }
{
    let language = table.language();
    let mut items = Items::new(alloc);
    let mut total = sum;
    let mut rest = text;
    'each: while let Some((told, more)) = first_item(alloc, language, skip_spaces(rest))? {
        let (item, next) = read_item(
            alloc,
            names,
            table,
            form,
            left,
            weight,
            total,
            told.variant,
            told.inside,
        )?;
        items.push(item)?;
        total = next;
        rest = more;
    }
    Ok((items, total))
}

/// The values of a form, or of its variant.
#[cycle(read)]
pub fn read_item(
    alloc: Global,
    names: &Names,
    table: &Table,
    form: &Parsed,
    left: u8,
    weight: usize,
    sum: usize,
    variant: Option<Number>,
    inside: &str,
) -> Result<(Item, usize), ArgFault>
    requires sum { sum ≤ 8192 }
    ensures value { (v : Option ℕ) (ss : Shapes) → HoldsVariant variant v
        → SpellsShapes table.now.entries.language inside.now ss
        → GivesItem result v (meant_inside names.now table.now.entries form.now v ss)
        (item_scan table.now.entries left form.now weight sum v
        (meant_inside names.now table.now.entries form.now v ss)) }
    ensures spelled { IfOk result (λ _. SpellsSome table.now.entries.language inside.now) }
    ensures small { SmallValue result }
{
    let sum = add(weight, sum)?;
    let (pieces, variant) = find_pieces(form, variant)?;
    let (args, sum) = read_values(alloc, names, table, pieces, left, weight, sum, inside)?;
    Ok((Item { variant, args }, sum))
}
