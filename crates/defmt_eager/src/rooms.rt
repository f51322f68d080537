//! Texts of pieces, each written into a room that grows until it takes it, and appended.

ghost use Rattle.std.specs.Prelude.{◌≡◌, ◌≤◌, ◌++◌, length, take, IfOk, OnOk};
ghost use Rattle.std.specs.Str.{IsUtf8};
ghost use Rattle.defmt_eager.specs.Answers.{Shows};
ghost use Rattle.defmt_eager.specs.Show.{pieces_text, shows};

use crate::eager::{EagerFault, PRINTED_LIMIT};
use crate::values::put_pieces;
use defmt_grammar::{Hint, Memory, Piece, Text};
use defmt_intern::Table;
use defmt_values::Args;
use std::str;

// The bytes of the first room. Each one has four times as many as the one before it, and the last one as many as the limit.
const FIRST_ROOM: usize = 256;

// A room of so many bytes.
fn room_of(out: &Text, count: usize) -> Result<Vec<u8>, Memory>
    ensures { IfOk result (λ room. length room.items ≡ count) }
{
    Ok(vec![in out.allocator(); 0u8; count]?)
}

// Appends what stands in front of a place.
fn append(out: &mut Text, room: &[u8], end: usize) -> Result<(), Memory>
    requires within { end ≤ length room.now }
    requires utf8 { IsUtf8 (take end room.now) }
    ensures { OnOk result (out.new ≡ out.old ++ take end room.now) }
{
    match str::from_utf8(&room[..end]) {
        Ok(text) => out.push_str(text),
        Err(_) => unreachable!(),
    }
}

// Appends the text of pieces with these arguments.
pub(crate) fn push_pieces(
    table: &Table,
    out: &mut Text,
    pieces: &[Piece],
    args: &Args,
) -> Result<(), EagerFault>
    ensures { Shows result out.old out.new
        (pieces_text Hint.Plain pieces.now (shows table.now.entries args.now)) }
{
    let mut size = FIRST_ROOM;
    'rooms: loop {
        let mut room = room_of(out, size)?;
        let place = room.as_mut_slice();
        if let Some(end) = put_pieces(table, place, 0, Hint::Plain, pieces, args) {
            append(out, place, end)?;
            return Ok(());
        }
        if size >= PRINTED_LIMIT {
            return Err(EagerFault::Wide);
        }
        size = size * 4;
    }
}
