//! The walk over pieces: values in the pieces of their texts, to the depth of the values, written at a place.

ghost use Rattle.std.specs.Prelude.{◌≤◌, ◌++◌, length};
ghost use Rattle.defmt_eager.specs.Answers.{Puts, comma};
ghost use Rattle.defmt_eager.specs.Show.{node_pieces, show_val, shows, show_elems, show_nodes, pieces_text, piece_text, param_text};
ghost use Rattle.defmt_hints.specs.Printed.{list_text, parted};
ghost use Rattle.defmt_values.specs.View.{plain};

use crate::leaves::{put_bits, put_character, put_float_of_kind, put_signed, text_hint};
use crate::pieces::{acting, comma, interned_text, node_pieces};
use defmt_grammar::{Hint, Kind, Param, Piece};
use defmt_hints::{put, put_bool, put_bytes, put_str, put_wide_uint};
use defmt_intern::Table;
use defmt_values::{Args, Item, Items, Node, Nodes, Value, cut};

// Writes the text of a value where a parameter of this kind stands, under the hint that acts on it.
#[cycle(show)]
fn put_value(
    table: &Table,
    out: &mut [u8],
    at: usize,
    kind: Kind,
    hint: Hint,
    value: &Value,
) -> Option<usize>
    requires { at ≤ length out.old }
    ensures { Puts result out.old at out.new
        (show_val table.now.entries (plain value.now) kind hint) }
{
    match value {
        Value::Uint(number) => put_wide_uint(out, at, *number, hint),
        Value::Int(number) => put_signed(out, at, *number, kind, hint),
        Value::Bool(value) => put_bool(out, at, *value),
        Value::Char(character) => put_character(out, at, *character, hint),
        Value::Bits(number) => put_bits(out, at, *number, kind, hint),
        Value::Str(text) => put_str(out, at, text.as_str(), text_hint(kind, hint)),
        Value::Istr(index) => put_str(out, at, interned_text(table, *index), hint),
        Value::Bytes(bytes) => put_bytes(out, at, bytes.as_slice(), hint),
        Value::Format(node) => put_node(table, out, at, hint, node),
        Value::Seq(seq) => put_list(table, out, at, hint, seq.index.unwrap_or(0), &seq.items),
        Value::Float(bits) => put_float_of_kind(out, at, *bits, kind),
        Value::Sequence(nodes) => put_nodes(table, out, at, hint, nodes),
    }
}

// Writes what stands for a parameter.
#[cycle(show)]
fn put_param(
    table: &Table,
    out: &mut [u8],
    at: usize,
    outer: Hint,
    param: Param,
    args: &Args,
) -> Option<usize>
    requires { at ≤ length out.old }
    ensures { Puts result out.old at out.new
        (param_text outer (shows table.now.entries args.now) param.position param.kind param.hint) }
{
    match args.get(param.position) {
        None => Some(at),
        Some(value) => {
            let hint = acting(outer, param.hint);
            put_value(table, out, at, param.kind, hint, value)
        }
    }
}

#[cycle(show)]
fn put_piece(
    table: &Table,
    out: &mut [u8],
    at: usize,
    outer: Hint,
    piece: &Piece,
    args: &Args,
) -> Option<usize>
    requires { at ≤ length out.old }
    ensures { Puts result out.old at out.new
        (piece_text outer piece.now (shows table.now.entries args.now)) }
{
    match piece {
        Piece::Literal(text) => put(out, at, text.as_str().as_bytes()),
        Piece::Param(param) => put_param(table, out, at, outer, *param, args),
    }
}

// Writes the text of pieces with these arguments, under the hint that acts round them. `None` exactly where the buffer ends before it.
#[cycle(show)]
pub(crate) fn put_pieces(
    table: &Table,
    out: &mut [u8],
    at: usize,
    outer: Hint,
    pieces: &[Piece],
    args: &Args,
) -> Option<usize>
    requires { at ≤ length out.old }
    ensures { Puts result out.old at out.new
        (pieces_text outer pieces.now (shows table.now.entries args.now)) }
{
    let mut place = at;
    let mut rest = pieces;
    'each: while let Some((piece, more)) = cut(rest) {
        let end = put_piece(table, out, place, outer, piece, args)?;
        place = end;
        rest = more;
    }
    Some(place)
}

// Writes the text of a Format value. Few statements have values inside values, so these are written by a call.
#[cycle(show)]
#[inline(never)]
fn put_node(table: &Table, out: &mut [u8], at: usize, hint: Hint, node: &Node) -> Option<usize>
    requires { at ≤ length out.old }
    ensures { Puts result out.old at out.new
        (pieces_text hint (node_pieces table.now.entries node.now.index node.now.variant)
        (shows table.now.entries node.now.args)) }
{
    let pieces = node_pieces(table, node.index, node.variant);
    put_pieces(table, out, at, hint, pieces, &node.args)
}

// Writes an element of a list, behind a comma where it isn't the first.
#[cycle(show)]
fn put_item(
    table: &Table,
    out: &mut [u8],
    at: usize,
    hint: Hint,
    index: u16,
    first: bool,
    item: &Item,
) -> Option<usize>
    requires { at ≤ length out.old }
    ensures { Puts result out.old at out.new (comma first
        ++ pieces_text hint (node_pieces table.now.entries index item.now.variant)
        (shows table.now.entries item.now.args)) }
{
    let behind = put(out, at, comma(first).as_bytes())?;
    let pieces = node_pieces(table, index, item.variant);
    put_pieces(table, out, behind, hint, pieces, &item.args)
}

// Writes the elements of a list.
#[cycle(show)]
fn put_items(
    table: &Table,
    out: &mut [u8],
    at: usize,
    hint: Hint,
    index: u16,
    items: &Items,
) -> Option<usize>
    requires { at ≤ length out.old }
    ensures { Puts result out.old at out.new
        (parted (show_elems table.now.entries index hint items.now)) }
{
    let mut place = at;
    let mut rest = items.as_slice();
    let mut first = true;
    'each: while let Some((item, more)) = cut(rest) {
        let end = put_item(table, out, place, hint, index, first, item)?;
        place = end;
        rest = more;
        first = false;
    }
    Some(place)
}

// Writes a list between its brackets.
#[cycle(show)]
#[inline(never)]
fn put_list(
    table: &Table,
    out: &mut [u8],
    at: usize,
    hint: Hint,
    index: u16,
    items: &Items,
) -> Option<usize>
    requires { at ≤ length out.old }
    ensures { Puts result out.old at out.new
        (list_text (show_elems table.now.entries index hint items.now)) }
{
    let open = put(out, at, b"[")?;
    let behind = put_items(table, out, open, hint, index, items)?;
    put(out, behind, b"]")
}

// Writes the elements of a sequence, one behind the other.
#[cycle(show)]
#[inline(never)]
fn put_nodes(table: &Table, out: &mut [u8], at: usize, hint: Hint, nodes: &Nodes) -> Option<usize>
    requires { at ≤ length out.old }
    ensures { Puts result out.old at out.new (show_nodes table.now.entries hint nodes.now) }
{
    let mut place = at;
    let mut rest = nodes.as_slice();
    'each: while let Some((node, more)) = cut(rest) {
        let end = put_node(table, out, place, hint, node)?;
        place = end;
        rest = more;
    }
    Some(place)
}
