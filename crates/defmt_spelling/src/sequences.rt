//! Sequences of Format values.
ghost use Rattle.std.specs.Prelude.{◌<◌, ◌≤◌, ℕ, Option, IfOk, IfSome, length};
ghost use Rattle.std.specs.Str.{IsUtf8};
ghost use Rattle.defmt_shapes.specs.Shape.{Shapes, nodes, AreCalls, SpellsShapes};
ghost use Rattle.defmt_shapes.specs.Spelling.{HoldsVariant};
ghost use Rattle.defmt_spelling.specs.Meaning.{meant_val, meant_nodes};
ghost use Rattle.defmt_spelling.specs.Reading.{FindsCall, GivesNode, GivesNodes, GivesValue, SmallValue};
ghost use Rattle.defmt_values.specs.Scan.{scan_nodes, scan_val};

use crate::fault::ArgFault;
use crate::forms::{check_sequence, find_element};
use crate::names::Names;
use crate::nested::read_item;
use defmt_grammar::{Language, Slot};
use defmt_intern::Table;
use defmt_shapes::{Number, Spelling, first_value, skip_spaces};
use defmt_values::{Item, Node, Nodes, Value};
use dl_io::Memory;
use std::alloc::Global;

// The name, the variant and the inside of the first Format value of a text, and what follows it.
fn first_call(
    alloc: Global,
    language: Language,
    text: &str,
) -> Result<Option<(&str, Option<Number>, &str, &str)>, Memory>
    ensures call { (ss : Shapes) → AreCalls ss → SpellsShapes language text.now ss
        → FindsCall language result ss }
    ensures shorter { IfOk result (λ o. IfSome o (λ p. length p.3.now < length text.now)) }
    ensures utf8 { IfOk result (λ o. IfSome o (λ p. IsUtf8 p.3.now)) }
{
    let Some((spelling, rest)) = first_value(alloc, language, skip_spaces(text))? else {
        return Ok(None);
    };
    match spelling {
        Spelling::Call {
            name,
            variant,
            inside,
        } => Ok(Some((name, variant, inside, rest))),
        _ => Ok(None),
    }
}

/// A sequence of Format values.
#[cycle(read)]
pub fn read_sequence(
    alloc: Global,
    names: &Names,
    table: &Table,
    slot: Slot,
    left: u8,
    weight: usize,
    sum: usize,
    inside: &str,
) -> Result<(Value, usize), ArgFault>
    requires sum { sum ≤ 8192 }
    ensures value { (ss : Shapes) → AreCalls ss
        → SpellsShapes table.now.entries.language inside.now ss
        → GivesValue result (meant_val names.now table.now.entries slot (nodes ss))
        (scan_val table.now.entries left slot weight sum
        (meant_val names.now table.now.entries slot (nodes ss))) }
    ensures small { SmallValue result }
{
    check_sequence(slot)?;
    let (nodes, sum) = read_nodes(alloc, names, table, left, weight, sum, inside)?;
    Ok((Value::Sequence(nodes), sum))
}

// The Format values of a sequence.
#[cycle(read)]
fn read_nodes(
    alloc: Global,
    names: &Names,
    table: &Table,
    left: u8,
    weight: usize,
    sum: usize,
    text: &str,
) -> Result<(Nodes, usize), ArgFault>
    requires sum { sum ≤ 8192 }
    ensures value { (ss : Shapes) → AreCalls ss
        → SpellsShapes table.now.entries.language text.now ss
        → GivesNodes result (meant_nodes names.now table.now.entries ss)
        (scan_nodes table.now.entries left weight sum
        (meant_nodes names.now table.now.entries ss)) }
    ensures small { SmallValue result }
{
    let language = table.language();
    let mut nodes = Nodes::new(alloc);
    let mut total = sum;
    let mut rest = text;
    'each: while let Some((name, variant, inside, more)) = first_call(alloc, language, rest)? {
        let (node, next) = read_element(
            alloc, names, table, left, weight, total, name, variant, inside,
        )?;
        nodes.push(node)?;
        total = next;
        rest = more;
    }
    Ok((nodes, total))
}

// A Format value of a sequence.
#[cycle(read)]
fn read_element(
    alloc: Global,
    names: &Names,
    table: &Table,
    left: u8,
    weight: usize,
    sum: usize,
    name: &str,
    variant: Option<Number>,
    inside: &str,
) -> Result<(Node, usize), ArgFault>
    requires sum { sum ≤ 8192 }
    ensures value { (v : Option ℕ) (ss : Shapes) → HoldsVariant variant v
        → SpellsShapes table.now.entries.language inside.now ss
        → GivesNode result names.now table.now.entries left weight sum name.now v ss }
    ensures small { SmallValue result }
{
    let (index, form) = find_element(names, table, left, name)?;
    let (item, sum) = read_item(
        alloc,
        names,
        table,
        form,
        left - 1,
        weight,
        sum,
        variant,
        inside,
    )?;
    let Item { variant, args } = item;
    Ok((
        Node {
            index,
            variant,
            args,
        },
        sum,
    ))
}
