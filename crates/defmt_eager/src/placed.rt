//! The line of a statement, written at a place.

ghost use Rattle.std.specs.Prelude.{◌≡◌, ◌≤◌, ◌++◌, codes, length, IfSome};
ghost use Rattle.std.specs.Option.{option_map};
ghost use Rattle.defmt_eager.specs.Answers.{Puts, PutsLine, PutsNarrow, PutsParted};
ghost use Rattle.defmt_eager.specs.Line.{front_text, stamp_text, IsLong};
ghost use Rattle.defmt_encode.specs.Carry.{stamp_args};
ghost use Rattle.defmt_intern.specs.Stamp.{stamp_of};

use crate::eager::PRINTED_LIMIT;
use crate::front::{Front, front_of};
use crate::printed::parts_at;
use crate::stamps::{is_wide_stamp, put_stamp};
use crate::values::put_pieces;
use defmt_grammar::Hint;
use defmt_hints::put;
use defmt_intern::Table;
use defmt_values::Statement;

// The bytes of the name of a level.
const LEVEL_WIDTH: usize = 5;

// Writes the name of a level and a space.
#[inline(always)]
fn put_level(out: &mut [u8], at: usize, level: &str) -> Option<usize>
    requires place { at ≤ length out.old }
    requires width { length level.now ≡ 5 }
    ensures { Puts result out.old at out.new (level.now ++ codes " ") }
{
    // Their number is known here, so the name is copied without a call.
    let name = &level.as_bytes()[..LEVEL_WIDTH];
    let end = put(out, at, name)?;
    put(out, end, b" ")
}

// Writes what stands in front of the text of a statement of this level. `None` too where the stamp's text is too long, also where it
// isn't printed.
#[inline(always)]
fn put_front(
    table: &Table,
    stamp: Option<u64>,
    level: Option<&str>,
    out: &mut [u8],
    at: usize,
) -> Option<usize>
    requires place { at ≤ length out.old }
    requires width { IfSome level (λ l. length l.now ≡ 5) }
    ensures { PutsNarrow
        (IsLong (stamp_text table.now.entries (stamp_of table.now.entries) (stamp_args stamp)))
        result out.old at out.new
        (front_text table.now.entries (stamp_of table.now.entries) (stamp_args stamp)
        (option_map (λ l. l.now) level.entry)) }
{
    let Some(level) = level else {
        if is_wide_stamp(table, stamp) {
            return None;
        }
        return Some(at);
    };
    let stamped = put_stamp(table, stamp, out, at)?;
    put_level(out, stamped, level)
}

// Writes the line of a statement, and answers with its front.
#[inline(always)]
fn put_parted(
    table: &Table,
    stamp: Option<u64>,
    stm: &Statement,
    out: &mut [u8],
    at: usize,
) -> Option<(Front, usize)>
    requires { at ≤ length out.old }
    ensures { PutsParted result table.now.entries (stamp_args stamp) stm.now.index stm.now.args
        out.old at out.new }
{
    let (level, pieces) = parts_at(table, stm.index);
    let start = put_front(table, stamp, level, out, at)?;
    let end = put_pieces(table, out, start, Hint::Plain, pieces, &stm.args)?;
    if end - start > PRINTED_LIMIT {
        return None;
    }
    Some((front_of(table, level, start - at), end))
}

/// Writes the line of a statement into a buffer at a place, without a newline at its end: the line that `line` gives with a stamp of
/// one number or none. Answers the place behind it. What stands in front of the place is as before in any case, and what stands
/// behind the line too. Takes no memory.
///
/// `None` exactly where `line` gives `EagerFault::Wide`, so where the text of the stamp or that of the statement has more than 65,536
/// bytes, or where the buffer ends before the line does.
pub fn put_line(
    table: &Table,
    stamp: Option<u64>,
    stm: &Statement,
    out: &mut [u8],
    at: usize,
) -> Option<usize>
    requires { at ≤ length out.old }
    ensures { PutsLine result table.now.entries (stamp_args stamp) stm.now.index stm.now.args
        out.old at out.new }
{
    let (_, end) = put_parted(table, stamp, stm, out, at)?;
    Some(end)
}

/// Does what `put_line` does, and answers how many bytes the line has in front of the statement's own text too.
pub fn put_parted_line(
    table: &Table,
    stamp: Option<u64>,
    stm: &Statement,
    out: &mut [u8],
    at: usize,
) -> Option<(Front, usize)>
    requires { at ≤ length out.old }
    ensures { PutsParted result table.now.entries (stamp_args stamp) stm.now.index stm.now.args
        out.old at out.new }
{
    put_parted(table, stamp, stm, out, at)
}
