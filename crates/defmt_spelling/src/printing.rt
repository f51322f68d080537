//! Writing the arguments of a statement as text.
ghost use Rattle.std.specs.Prelude.{◌≡◌, ◌++◌, ℕ, OnOk, IfOk, Ok, true, codes};
ghost use Rattle.defmt_intern.specs.Table.{Map as AnyTable};
ghost use Rattle.defmt_spelling.specs.Named.{AreNamed};
ghost use Rattle.defmt_spelling.specs.Names.{NameMap};
ghost use Rattle.defmt_spelling.specs.Spelling.{ReadsArguments};
ghost use Rattle.defmt_values.specs.Fits.{Fits};
ghost use Rattle.defmt_values.specs.Plain.{Vals};
ghost use Rattle.defmt_values.specs.Sound.{AreSound};
ghost use Rattle.defmt_spelling.specs.Printed.{item_mark, node_slots, own_slots, printed_val, inside_text, node_text, vals_text, printed_list, elems_text, nodes_text, printed_arguments};
ghost use Rattle.defmt_values.specs.View.{plain};

use crate::marks::{
    next_slot, node_slots, push_bytes, push_call_mark, push_float, push_gap, push_interned,
    push_item_mark, push_name,
};
use crate::names::Names;
use defmt_grammar::{Hint, IntSize, Memory, Slot, Text};
use defmt_hints::{show_bool, show_char, show_int, show_str, show_uint};
use defmt_intern::Table;
use defmt_values::{Args, Item, Items, Node, Nodes, Seq, Statement, Value, cut, own_form};
use std::alloc::Global;

#[cycle(print)]
#[tactic(auto, unfolding(crate::specs::Printed::printed_val))]
fn push_value(
    out: &mut Text,
    names: &Names,
    table: &Table,
    slot: Slot,
    value: &Value,
) -> Result<(), Memory>
    ensures { OnOk result (out.new ≡ out.old
        ++ printed_val names.now table.now.entries slot (plain value.now)) }
{
    match value {
        Value::Uint(n) => show_uint(*n, &Hint::Plain, out),
        Value::Int(n) => show_int(*n, IntSize::W128, &Hint::Plain, out),
        Value::Bool(flag) => show_bool(*flag, out),
        Value::Char(character) => show_char(*character, &Hint::Debug, out),
        Value::Str(text) => show_str(text.as_str(), &Hint::Debug, out),
        Value::Istr(index) => push_interned(out, names, *index),
        Value::Bytes(bytes) => push_bytes(out, bytes.as_slice()),
        Value::Bits(n) => show_uint(*n, &Hint::Plain, out),
        Value::Format(node) => push_node(out, names, table, node),
        Value::Seq(seq) => push_list(out, names, table, seq),
        Value::Float(bits) => push_float(out, slot, *bits),
        Value::Sequence(nodes) => push_sequence(out, names, table, nodes),
    }
}

#[cycle(print)]
fn push_node(out: &mut Text, names: &Names, table: &Table, node: &Node) -> Result<(), Memory>
    ensures { OnOk result (out.new ≡ out.old
        ++ node_text names.now table.now.entries node.now.index node.now.variant node.now.args) }
{
    push_name(out, names, node.index)?;
    push_call_mark(out, node.variant)?;
    let slots = node_slots(table, node.index, node.variant);
    push_inside(out, names, table, slots, &node.args)
}

#[cycle(print)]
#[tactic(auto, unfolding(crate::specs::Printed::printed_val))]
fn push_inside(
    out: &mut Text,
    names: &Names,
    table: &Table,
    slots: &[Slot],
    args: &Args,
) -> Result<(), Memory>
    ensures { OnOk result (out.new ≡ out.old
        ++ inside_text names.now table.now.entries slots.now args.now) }
{
    out.push_str("(")?;
    push_values(out, names, table, slots, args)?;
    out.push_str(")")
}

#[cycle(print)]
fn push_values(
    out: &mut Text,
    names: &Names,
    table: &Table,
    slots: &[Slot],
    args: &Args,
) -> Result<(), Memory>
    ensures { OnOk result (out.new ≡ out.old
        ++ vals_text names.now table.now.entries true slots.now args.now) }
{
    let mut rest = args.as_slice();
    let mut first = true;
    let mut there = slots;
    'each: while let Some((value, more)) = cut(rest) {
        let (slot, behind) = next_slot(there);
        push_gap(out, first)?;
        push_value(out, names, table, slot, value)?;
        first = false;
        there = behind;
        rest = more;
    }
    Ok(())
}

#[cycle(print)]
#[tactic(auto, unfolding(crate::specs::Printed::printed_val))]
fn push_list(out: &mut Text, names: &Names, table: &Table, seq: &Seq) -> Result<(), Memory>
    ensures { OnOk result (out.new ≡ out.old
        ++ printed_list names.now table.now.entries seq.now.index seq.now.items) }
{
    if seq.items.is_empty() {
        return out.push_str("[]");
    }
    let index = seq.index.unwrap_or(0);
    push_name(out, names, index)?;
    out.push_str("[")?;
    push_items(out, names, table, index, &seq.items)?;
    out.push_str("]")
}

#[cycle(print)]
fn push_items(
    out: &mut Text,
    names: &Names,
    table: &Table,
    index: u16,
    items: &Items,
) -> Result<(), Memory>
    ensures { OnOk result (out.new ≡ out.old
        ++ elems_text names.now table.now.entries true index items.now) }
{
    let mut rest = items.as_slice();
    let mut first = true;
    'each: while let Some((item, more)) = cut(rest) {
        push_gap(out, first)?;
        push_item(out, names, table, index, item)?;
        first = false;
        rest = more;
    }
    Ok(())
}

#[cycle(print)]
fn push_item(
    out: &mut Text,
    names: &Names,
    table: &Table,
    index: u16,
    item: &Item,
) -> Result<(), Memory>
    ensures { OnOk result (out.new ≡ out.old ++ (item_mark item.now.variant
        ++ inside_text names.now table.now.entries
        (node_slots table.now.entries index item.now.variant) item.now.args)) }
{
    push_item_mark(out, item.variant)?;
    let slots = node_slots(table, index, item.variant);
    push_inside(out, names, table, slots, &item.args)
}

#[cycle(print)]
#[tactic(auto, unfolding(crate::specs::Printed::printed_val))]
fn push_sequence(out: &mut Text, names: &Names, table: &Table, nodes: &Nodes) -> Result<(), Memory>
    ensures { OnOk result (out.new ≡ out.old ++ (codes "<"
        ++ (nodes_text names.now table.now.entries true nodes.now ++ codes ">"))) }
{
    out.push_str("<")?;
    push_nodes(out, names, table, nodes)?;
    out.push_str(">")
}

#[cycle(print)]
fn push_nodes(out: &mut Text, names: &Names, table: &Table, nodes: &Nodes) -> Result<(), Memory>
    ensures { OnOk result (out.new ≡ out.old
        ++ nodes_text names.now table.now.entries true nodes.now) }
{
    let mut rest = nodes.as_slice();
    let mut first = true;
    'each: while let Some((node, more)) = cut(rest) {
        push_gap(out, first)?;
        push_node(out, names, table, node)?;
        first = false;
        rest = more;
    }
    Ok(())
}

// The slots of a statement's own text; none where it has none.
fn own_slots(table: &Table, index: u16) -> &[Slot]
    ensures { result.now ≡ own_slots table.now.entries index }
{
    match own_form(table, index) {
        Ok(pieces) => pieces.slots(),
        Err(_) => &[],
    }
}

// The arguments in their canonical spelling.
fn printed(
    alloc: Global,
    names: &Names,
    table: &Table,
    stm: &Statement,
) -> Result<Text, dl_io::Memory>
    ensures { IfOk result (λ text. text ≡ printed_arguments names.now table.now.entries
        stm.now.index stm.now.args) }
{
    let mut out = Text::new(alloc);
    let slots = own_slots(table, stm.index);
    match push_values(&mut out, names, table, slots, &stm.args) {
        Ok(()) => Ok(out),
        Err(_) => Err(dl_io::Memory),
    }
}

/// Writes the arguments of a statement in their canonical spelling: one space between values, numbers in decimal
/// digits, floats as their shortest decimals, bytes in lower-case hexadecimal digits, and of escapes only those of
/// newline, carriage return, tab, the backslash and the own quote. Of several names of one index the least in the
/// order of bytes is written; an index without a name is written as nothing.
pub fn print_args(
    alloc: Global,
    names: &Names,
    table: &Table,
    stm: &Statement,
) -> Result<Text, dl_io::Memory>
    ensures text { IfOk result (λ text. text ≡ printed_arguments names.now table.now.entries
        stm.now.index stm.now.args) }
    // Where the statement fits and each of its indexes has a name that is spelled as names are, the text reads back as the arguments.
    ensures back { Fits table.now.entries stm.now.index stm.now.args
        → AreNamed names.now stm.now.args
        → IfOk result (λ text.
        ReadsArguments names.now table.now.entries stm.now.index text (Ok stm.now.args)) }
{
    stm.args.are_sound();
    printed(alloc, names, table, stm)
}

/// What is written reads back as the same arguments, where they fit the table, each index in them has a name that is
/// spelled as names are, and they are what the types of values say.
pub fn reads_back()
    ensures { (names : NameMap) (table : AnyTable) (index : ℕ) (vs : Vals) → Fits table index vs
        → AreNamed names vs → AreSound vs
        → ReadsArguments names table index (printed_arguments names table index vs) (Ok vs) }
{}
