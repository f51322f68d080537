//! The printed line of a statement.
ghost use Rattle.std.specs.Prelude.{◌≡◌, ◌++◌, [], codes, length, IfOk, IfSome, OnOk};
ghost use Rattle.std.specs.Option.{option_map};
ghost use Rattle.defmt_eager.specs.Answers.{Shows, GivesFront, GivesLine, GivesParted};
ghost use Rattle.defmt_eager.specs.Line.{level_text, level_at, stamp_text, stamp_space};
ghost use Rattle.defmt_eager.specs.Show.{own_pieces};
ghost use Rattle.defmt_intern.specs.Stamp.{stamp_of};
ghost use Rattle.defmt_values.specs.Fits.{Fits, FitsStamp, IsLogged};

use crate::eager::EagerFault;
use crate::front::{Front, front_of};
use crate::pieces::{own_pieces, pieces_of};
use crate::rooms::push_pieces;
use defmt_grammar::{Memory, Piece, Text};
use defmt_intern::{Table, Tag};
use defmt_values::{Args, Statement, look_up};
use std::alloc::Global;

/// The name of a level, left in five places. What is no level has none.
pub fn level_text(tag: &Tag) -> Option<&'static str>
    ensures text { option_map (λ level. level.now) result ≡ level_text tag.now }
    ensures width { IfSome result (λ level. length level.now ≡ 5) }
{
    match tag {
        Tag::Trace => Some("TRACE"),
        Tag::Debug => Some("DEBUG"),
        Tag::Info => Some("INFO "),
        Tag::Warn => Some("WARN "),
        Tag::Error => Some("ERROR"),
        _ => None,
    }
}

// The level of an index's entry, and the pieces of its text. It is looked up once for both.
#[inline(always)]
pub(crate) fn parts_at(table: &Table, index: u16) -> (Option<&'static str>, &[Piece])
    ensures level { option_map (λ level. level.now) result.0 ≡ level_at table.now.entries index }
    ensures width { IfSome result.0 (λ level. length level.now ≡ 5) }
    ensures pieces { result.1.now ≡ own_pieces table.now.entries index }
{
    match look_up(table, index) {
        None => (None, &[]),
        Some((entry, body)) => (level_text(&entry.tag), pieces_of(body)),
    }
}

// Appends the text of the stamp, where there is a timestamp's entry.
fn push_stamp(
    table: &Table,
    out: &mut Text,
    at: Option<u16>,
    stamp: &Args,
) -> Result<(), EagerFault>
    ensures { Shows result out.old out.new (stamp_text table.now.entries at stamp.now) }
{
    match at {
        None => Ok(()),
        Some(index) => push_pieces(table, out, own_pieces(table, index), stamp),
    }
}

// Appends a space, where there is a timestamp's entry.
fn push_space(out: &mut Text, at: Option<u16>) -> Result<(), Memory>
    ensures { OnOk result (out.new ≡ out.old ++ stamp_space at) }
{
    match at {
        None => Ok(()),
        Some(_) => out.push(' '),
    }
}

// Appends the name of a level between two spaces, the first only where there is a timestamp's entry.
fn push_level(out: &mut Text, at: Option<u16>, level: &str) -> Result<(), Memory>
    ensures { OnOk result (out.new ≡ (out.old ++ stamp_space at) ++ (level.now ++ codes " ")) }
{
    push_space(out, at)?;
    out.push_str(level)?;
    out.push(' ')
}

// An empty text with room for most lines.
fn roomy(alloc: Global) -> Result<Text, Memory>
    ensures { IfOk result (λ text. text ≡ []) }
{
    Ok(Text::from_string(String::with_capacity(alloc, 96)?))
}

// What stands in front of the text of a statement of this level.
fn text_in_front(
    alloc: Global,
    table: &Table,
    at: Option<u16>,
    stamp: &Args,
    level: Option<&str>,
) -> Result<Text, EagerFault>
    ensures { GivesFront result table.now.entries at stamp.now
        (option_map (λ l. l.now) level.entry) }
{
    let mut out = roomy(alloc)?;
    push_stamp(table, &mut out, at, stamp)?;
    let Some(level) = level else {
        return Ok(Text::new(alloc));
    };
    push_level(&mut out, at, level)?;
    Ok(out)
}

/// The printed line of a statement, without a newline at its end: the stamp's text and a space, where the table has a
/// timestamp entry; the level, `TRACE`, `DEBUG`, `INFO`, `WARN` or `ERROR`, left in five places; a space; the text. The
/// line of a println statement is its text alone (defmt book, the display of log frames).
///
/// The stamp's arguments and the statement fit the table, and the statement's entry is a level's or println's. Without
/// a timestamp entry the stamp has no arguments.
///
/// # Errors
/// `EagerFault::Wide` exactly where the text of the stamp or that of the statement has more than 65,536 bytes, also
/// where the stamp isn't printed. `EagerFault::Memory` where memory runs out.
pub fn line(alloc: Global, table: &Table, stamp: &Args, stm: &Statement) -> Result<Text, EagerFault>
    requires stamp { FitsStamp table.now.entries (stamp_of table.now.entries) stamp.now }
    requires fits { Fits table.now.entries stm.now.index stm.now.args }
    requires logged { IsLogged table.now.entries stm.now.index }
    ensures { GivesLine result table.now.entries stamp.now stm.now.index stm.now.args }
{
    let (_, text) = parted_line(alloc, table, stamp, stm)?;
    Ok(text)
}

/// Does what `line` does, and answers how many bytes the line has in front of the statement's own text too.
pub fn parted_line(
    alloc: Global,
    table: &Table,
    stamp: &Args,
    stm: &Statement,
) -> Result<(Front, Text), EagerFault>
    requires stamp { FitsStamp table.now.entries (stamp_of table.now.entries) stamp.now }
    requires fits { Fits table.now.entries stm.now.index stm.now.args }
    requires logged { IsLogged table.now.entries stm.now.index }
    ensures { GivesParted result table.now.entries stamp.now stm.now.index stm.now.args }
{
    let (level, pieces) = parts_at(table, stm.index);
    let mut out = text_in_front(alloc, table, table.stamp(), stamp, level)?;
    let front = front_of(table, level, out.len());
    push_pieces(table, &mut out, pieces, &stm.args)?;
    Ok((front, out))
}
