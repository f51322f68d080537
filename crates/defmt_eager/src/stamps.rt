//! The text of a stamp that is one number or none, at the front of a line.

ghost use Rattle.std.specs.Prelude.{◌≡◌, ◌≤◌, ◌++◌, nat_lt, length, Some};
ghost use Rattle.defmt_eager.specs.Answers.{Puts, PutsNarrow, most_bytes};
ghost use Rattle.defmt_eager.specs.Line.{printed_limit, stamp_space, stamp_text, IsLong};
ghost use Rattle.defmt_eager.specs.Show.{piece_text, pieces_text, shows};
ghost use Rattle.defmt_encode.specs.Carry.{stamp_args};
ghost use Rattle.defmt_hints.specs.Printed.{printed_uint};
ghost use Rattle.defmt_intern.specs.Stamp.{stamp_of};
ghost use Rattle.defmt_intern.specs.Table.{Map};

use crate::eager::PRINTED_LIMIT;
use crate::pieces::{acting, own_pieces};
use crate::wide::most_bytes;
use defmt_grammar::{Hint, Piece};
use defmt_hints::{put, put_uint};
use defmt_intern::Table;
use defmt_values::cut;

// More bytes than a number has under any hint.
const NUMBER_ROOM: usize = 560;

// Writes one of the pieces that the stamp stands in.
fn put_stamp_piece(piece: &Piece, stamp: Option<u64>, out: &mut [u8], at: usize) -> Option<usize>
    requires { at ≤ length out.old }
    ensures { (t : Map) → Puts result out.old at out.new
        (piece_text Hint.Plain piece.now (shows t (stamp_args stamp))) }
{
    match piece {
        Piece::Literal(text) => put(out, at, text.as_str().as_bytes()),
        Piece::Param(param) => {
            let Some(number) = stamp else {
                return Some(at);
            };
            if param.position != 0 {
                return Some(at);
            }
            put_uint(out, at, number, param.hint)
        }
    }
}

// Writes the text of these pieces.
#[inline(always)]
fn put_stamp_pieces(
    table: &Table,
    pieces: &[Piece],
    stamp: Option<u64>,
    out: &mut [u8],
    at: usize,
) -> Option<usize>
    requires { at ≤ length out.old }
    ensures { Puts result out.old at out.new (pieces_text Hint.Plain pieces.now
        (shows table.now.entries (stamp_args stamp))) }
{
    let mut place = at;
    let mut rest = pieces;
    'each: while let Some((piece, more)) = cut(rest) {
        let end = put_stamp_piece(piece, stamp, out, place)?;
        place = end;
        rest = more;
    }
    Some(place)
}

// Writes the text of a stamp and a space, where the table has a timestamp's entry. `None` too where that text is too long.
#[inline(always)]
pub(crate) fn put_stamp(
    table: &Table,
    stamp: Option<u64>,
    out: &mut [u8],
    at: usize,
) -> Option<usize>
    requires { at ≤ length out.old }
    ensures { PutsNarrow
        (IsLong (stamp_text table.now.entries (stamp_of table.now.entries) (stamp_args stamp)))
        result out.old at out.new
        (stamp_text table.now.entries (stamp_of table.now.entries) (stamp_args stamp)
        ++ stamp_space (stamp_of table.now.entries)) }
{
    let Some(index) = table.stamp() else {
        return Some(at);
    };
    let end = put_stamp_pieces(table, own_pieces(table, index), stamp, out, at)?;
    if end - at > PRINTED_LIMIT {
        return None;
    }
    put(out, end, b" ")
}

// The bytes of a number that is written to the front of a room with enough of them.
fn length_in(room: &mut [u8], number: u64, hint: Hint) -> usize
    requires { most_bytes hint ≤ length room.old }
    ensures { result ≡ length (printed_uint number hint) }
{
    match put_uint(room, 0, number, hint) {
        Some(end) => end,
        None => unreachable!(),
    }
}

// The bytes of a number.
fn number_length(number: u64, hint: Hint) -> usize
    ensures { result ≡ length (printed_uint number hint) }
{
    let _most = most_bytes(hint);
    let mut room = [0u8; NUMBER_ROOM];
    length_in(&mut room, number, hint)
}

// The bytes of one of the pieces.
fn piece_length(piece: &Piece, stamp: Option<u64>) -> usize
    ensures { (t : Map) → result
        ≡ length (piece_text Hint.Plain piece.now (shows t (stamp_args stamp))) }
{
    match piece {
        Piece::Literal(text) => text.len(),
        Piece::Param(param) => {
            let Some(number) = stamp else {
                return 0;
            };
            if param.position != 0 {
                return 0;
            }
            number_length(number, acting(Hint::Plain, param.hint))
        }
    }
}

// Whether the text of the pieces has more than 65,536 bytes.
fn are_wide(pieces: &[Piece], stamp: Option<u64>) -> bool
    ensures { (t : Map) → result
        ≡ nat_lt printed_limit (length (pieces_text Hint.Plain pieces.now (shows t (stamp_args stamp)))) }
{
    let mut left = PRINTED_LIMIT;
    let mut rest = pieces;
    'each: while let Some((piece, more)) = cut(rest) {
        let count = piece_length(piece, stamp);
        if count > left {
            return true;
        }
        left -= count;
        rest = more;
    }
    false
}

// Whether the text of a stamp has more than 65,536 bytes. It isn't written anywhere.
pub(crate) fn is_wide_stamp(table: &Table, stamp: Option<u64>) -> bool
    ensures { result ≡ nat_lt printed_limit
        (length (stamp_text table.now.entries (stamp_of table.now.entries) (stamp_args stamp))) }
{
    match table.stamp() {
        None => false,
        Some(index) => are_wide(own_pieces(table, index), stamp),
    }
}
