//! Whether the text of a statement is too long.
ghost use Rattle.std.specs.Prelude.{◌≡◌, ◌≤◌, ◌+◌, ◌*◌, nat_lt, length, IfOk};
ghost use Rattle.std.specs.Bool.{OnTrue};
ghost use Rattle.defmt_eager.specs.Answers.{HasAtMost, HaveAtMost, most_bytes};
ghost use Rattle.defmt_eager.specs.Line.{printed_limit};
ghost use Rattle.defmt_eager.specs.Show.{acting, eager_text, interned_text, node_pieces, piece_text, pieces_text, show_elems, show_nodes, show_val, shows};
ghost use Rattle.defmt_grammar.specs.declared.hint.Hint.{Hint as AnyHint};
ghost use Rattle.defmt_grammar.specs.declared.kind.Kind.{Kind as AnyKind};
ghost use Rattle.defmt_hints.specs.Printed.{list_text, printed_bytes, printed_str};
ghost use Rattle.defmt_intern.specs.Table.{Map as AnyTable};
ghost use Rattle.defmt_values.specs.Entries.{look};
ghost use Rattle.defmt_values.specs.Fits.{Fits};
ghost use Rattle.defmt_values.specs.View.{plain};

use crate::eager::{EagerFault, PRINTED_LIMIT, text_of};
use crate::pieces::{acting, interned_text, node_pieces, pieces_of};
use defmt_grammar::{Hint, Piece};
use defmt_intern::Table;
use defmt_values::{Args, Items, Node, Nodes, Statement, Value, cut, look_up};
use dl_io::Memory;
use std::alloc::Global;

// More bytes than a number, a truth value or a character has under a hint.
pub(crate) fn most_bytes(hint: Hint) -> usize
    ensures value { result ≡ most_bytes hint }
    ensures few { result ≤ 555 }
{
    match hint {
        Hint::Radix { width, .. } | Hint::Pad(width) => 300 + usize::from(width),
        _ => 300,
    }
}

// The same under any hint.
const NUMBER_MOST: usize = 555;

// The bytes of so many parts, and three around them. Sums stay at the greatest number: a bound above the limit says
// nothing.
fn bytes_of(parts: usize, most: usize) -> usize
    ensures { result ≤ printed_limit → result ≡ parts * most + 3 }
{
    parts.saturating_mul(most).saturating_add(3)
}

// No fewer bytes than the text of these bytes has.
fn bytes_bound(bytes: &[u8], hint: Hint) -> usize
    ensures { result ≤ printed_limit → length (printed_bytes bytes.now hint) ≤ result }
{
    bytes_of(bytes.len(), 2 + most_bytes(hint))
}

// The same under any hint of a parameter.
fn any_bytes_bound(bytes: &[u8]) -> usize
    ensures { (hint : AnyHint) → result ≤ printed_limit → most_bytes hint ≤ 555
        → length (printed_bytes bytes.now hint) ≤ result }
{
    bytes_of(bytes.len(), 2 + NUMBER_MOST)
}

// No fewer bytes than an interned string has, under any hint.
#[inline(never)]
fn interned_bound(table: &Table, index: u16) -> usize
    ensures { (hint : AnyHint) → result ≤ printed_limit
        → length (printed_str (interned_text (look table.now.entries index)) hint) ≤ result }
{
    bytes_of(interned_text(table, index).len(), 2)
}

// No fewer bytes than the text of a value has under any hint. Of one that names an entry nothing is said.
#[inline(always)]
#[tactic(auto, unfolding(crate::specs::Show::show_val), using(crate::proofs::Bounds::leaves))]
fn leaf_bound(value: &Value) -> usize
    ensures { (table : AnyTable) → result ≤ printed_limit
        → HasAtMost table (plain value.now) result }
{
    match value {
        Value::Uint(n) | Value::Bits(n) => {
            let _number = *n;
            NUMBER_MOST
        }
        Value::Int(_) | Value::Bool(_) | Value::Char(_) | Value::Float(_) => NUMBER_MOST,
        Value::Str(text) => bytes_of(text.len(), 2),
        Value::Bytes(bytes) => any_bytes_bound(bytes.as_slice()),
        Value::Istr(_) | Value::Format(_) | Value::Seq(_) | Value::Sequence(_) => usize::MAX,
    }
}

// No fewer bytes than the text of a value has, which isn't printed, under the hint that acts on its parameter.
#[cycle(bound)]
#[inline(always)]
fn value_bound(table: &Table, outer: Hint, own: Hint, value: &Value) -> usize
    ensures { (kind : AnyKind) → result ≤ printed_limit
        → length (show_val table.now.entries (plain value.now) kind (acting outer own)) ≤ result }
{
    match value {
        Value::Bytes(bytes) => bytes_bound(bytes.as_slice(), acting(outer, own)),
        Value::Istr(index) => interned_bound(table, *index),
        Value::Format(node) => node_bound(table, acting(outer, own), node),
        Value::Seq(seq) => {
            let index = seq.index.unwrap_or(0);
            list_bound(table, acting(outer, own), index, &seq.items)
        }
        Value::Sequence(nodes) => nodes_bound(table, acting(outer, own), nodes),
        _ => {
            let _most = most_bytes(acting(outer, own));
            leaf_bound(value)
        }
    }
}

// No fewer bytes than the text of a piece has.
#[cycle(bound)]
#[inline(always)]
fn piece_bound(table: &Table, outer: Hint, piece: &Piece, args: &Args) -> usize
    ensures { result ≤ printed_limit
        → length (piece_text outer piece.now (shows table.now.entries args.now)) ≤ result }
{
    match piece {
        Piece::Literal(text) => text.len(),
        Piece::Param(param) => match args.get(param.position) {
            None => 0,
            Some(value) => value_bound(table, outer, param.hint, value),
        },
    }
}

// The same of pieces one after another.
#[cycle(bound)]
#[inline(always)]
fn pieces_bound(table: &Table, outer: Hint, pieces: &[Piece], args: &Args) -> usize
    ensures { result ≤ printed_limit
        → length (pieces_text outer pieces.now (shows table.now.entries args.now)) ≤ result }
{
    let mut rest = pieces;
    let mut most = 0usize;
    'each: while let Some((piece, more)) = cut(rest) {
        most = most.saturating_add(piece_bound(table, outer, piece, args));
        rest = more;
    }
    most
}

// The same of a Format value. Few statements have values inside values, so these are bounded by a call.
#[cycle(bound)]
#[inline(never)]
fn node_bound(table: &Table, hint: Hint, node: &Node) -> usize
    ensures { result ≤ printed_limit
        → length (pieces_text hint (node_pieces table.now.entries node.now.index node.now.variant)
        (shows table.now.entries node.now.args)) ≤ result }
{
    let pieces = node_pieces(table, node.index, node.variant);
    pieces_bound(table, hint, pieces, &node.args)
}

// The same of a list, with its brackets and two bytes around each element.
#[cycle(bound)]
#[inline(never)]
fn list_bound(table: &Table, hint: Hint, index: u16, items: &Items) -> usize
    ensures { result ≤ printed_limit
        → length (list_text (show_elems table.now.entries index hint items.now)) ≤ result }
{
    let mut rest = items.as_slice();
    let mut most = 2usize;
    'each: while let Some((item, more)) = cut(rest) {
        let pieces = node_pieces(table, index, item.variant);
        let one = pieces_bound(table, hint, pieces, &item.args).saturating_add(2);
        most = most.saturating_add(one);
        rest = more;
    }
    most
}

// The same of a sequence.
#[cycle(bound)]
#[inline(never)]
fn nodes_bound(table: &Table, hint: Hint, nodes: &Nodes) -> usize
    ensures { result ≤ printed_limit
        → length (show_nodes table.now.entries hint nodes.now) ≤ result }
{
    let mut rest = nodes.as_slice();
    let mut most = 0usize;
    'each: while let Some((node, more)) = cut(rest) {
        most = most.saturating_add(node_bound(table, hint, node));
        rest = more;
    }
    most
}

// No fewer bytes than the text of each of these values has under any hint.
fn longest(args: &Args) -> usize
    ensures { (table : AnyTable) → result ≤ printed_limit → HaveAtMost table args.now result }
{
    let mut rest = args.as_slice();
    let mut most = 0usize;
    'each: while let Some((value, more)) = cut(rest) {
        most = most.max(leaf_bound(value));
        rest = more;
    }
    most
}

// Whether the bounds of its pieces keep the text of a statement within the limit.
#[inline(never)]
fn are_short(table: &Table, pieces: &[Piece], args: &Args) -> bool
    ensures { OnTrue result (length (pieces_text Hint.Plain pieces.now
        (shows table.now.entries args.now)) ≤ printed_limit) }
{
    pieces_bound(table, Hint::Plain, pieces, args) <= PRINTED_LIMIT
}

// Whether bounds keep the text of a statement within the limit: mostly its entry's text, and the longest of its values at
// each of its pieces, and else a bound of each piece.
fn is_short(table: &Table, index: u16, args: &Args) -> bool
    ensures { OnTrue result (length (eager_text table.now.entries index args.now) ≤ printed_limit) }
{
    let Some((entry, body)) = look_up(table, index) else {
        return true;
    };
    let pieces = pieces_of(body);
    let values = pieces.len().saturating_mul(longest(args));
    if values.saturating_add(entry.text.len()) <= PRINTED_LIMIT {
        return true;
    }
    are_short(table, pieces, args)
}

/// Whether the text of a statement that fits the table has more than 65,536 bytes. It is printed only where bounds on
/// the texts of its pieces don't tell.
///
/// # Errors
/// `Memory` where memory runs out.
pub fn is_wide(alloc: Global, table: &Table, stm: &Statement) -> Result<bool, Memory>
    requires { Fits table.now.entries stm.now.index stm.now.args }
    ensures { IfOk result
        (λ wide. wide
        ≡ nat_lt printed_limit
        (length (eager_text table.now.entries stm.now.index stm.now.args))) }
{
    if is_short(table, stm.index, &stm.args) {
        return Ok(false);
    }
    match text_of(alloc, table, stm) {
        Ok(_) => Ok(false),
        Err(EagerFault::Wide) => Ok(true),
        Err(EagerFault::Memory) => Err(Memory),
    }
}
