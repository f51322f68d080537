//! A message asked of the plans of a table, and read and printed in the general way.
ghost use Rattle.std.specs.Prelude.{OnOk};
ghost use Rattle.defmt_values.specs.Fits.{IsLogged};

use crate::reading::{put_cause, put_place};
use defmt_eager::{EagerFault, Front, parted_line};
use defmt_encode::{Heard, read_message};
use defmt_grammar::Text;
use defmt_intern::Table;
use defmt_plan::{Origin, PlannedTable};
use defmt_values::{Args, Statement, check, is_logged, look_up};
use std::alloc::Global;
use std::fmt::Write;
use std::test::Fail;
use test_rows::{PLACE, put_str, put_told, room_of, told_of};

// What is read of a message, and the line of it.
#[derive(Drop)]
struct Due {
    index: u16,
    place: Option<u16>,
    front: Front,
    line: Text,
}

// How many bytes the piece of each message is said to have.
const PIECE: u32 = 77;

fn logged(table: &Table, index: u16) -> Result<(), &'static str>
    ensures { OnOk result (IsLogged table.now.entries index) }
{
    match look_up(table, index) {
        Some((entry, _)) if is_logged(&entry.tag) => Ok(()),
        _ => Err("no level and not println"),
    }
}

fn told_line(line: Result<(Front, Text), EagerFault>) -> Result<(Front, Text), Fail> {
    match line {
        Ok(told) => Ok(told),
        Err(_) => Err(Fail::new("no line")),
    }
}

// The line of a statement with a stamp.
fn line_of(
    alloc: Global,
    table: &Table,
    stamp: Args,
    stm: &Statement,
) -> Result<(Front, Text), Fail> {
    check(table, stm)?;
    logged(table, stm.index)?;
    match table.stamp() {
        None => told_line(parted_line(alloc, table, &Args::new(alloc), stm)),
        Some(index) => {
            let stamp = Statement { index, args: stamp };
            check(table, &stamp)?;
            told_line(parted_line(alloc, table, &stamp.args, stm))
        }
    }
}

fn due_of(alloc: Global, table: &Table, heard: Heard) -> Result<Due, Fail> {
    let Heard { place, stamp, stm } = heard;
    let (front, line) = line_of(alloc, table, stamp, &stm)?;
    Ok(Due {
        index: stm.index,
        place,
        front,
        line,
    })
}

// Whether a line comes from where it is due.
fn is_due(origin: Origin, due: &Due) -> bool {
    let parts = origin.parts;
    origin.index == due.index
        && origin.place == due.place
        && parts.bytes == PIECE
        && parts.stamp == due.front.stamp
        && parts.front == due.front.size
}

// What the plans make of a message in a room of a size, where this is read of it.
fn told_in(
    alloc: Global,
    planned: &PlannedTable,
    bytes: &[u8],
    due: &Due,
    size: usize,
) -> Result<&'static str, Fail> {
    let mut room = room_of(alloc, size)?;
    if room.len() < PLACE {
        return Err(Fail::new("no place"));
    }
    let end = match planned.message(bytes, PIECE, &mut room, PLACE) {
        None => None,
        Some((origin, end)) if is_due(origin, due) => Some(end),
        Some(_) => return Ok("another message"),
    };
    Ok(told_of(&room, end, due.line.as_str()))
}

fn put_due(due: &Due, out: &mut String) -> Result<(), Fail> {
    write!(out, " {}", due.index)?;
    put_place(out, due.place)?;
    if due.line.len() > 200 {
        return Ok(write!(out, ": {} bytes", due.line.len())?);
    }
    Ok(write!(out, ": {}", due.line.as_str())?)
}

// Puts what the plans make of a message in rooms, and what is read of it.
fn put_in_rooms(
    alloc: Global,
    planned: &PlannedTable,
    bytes: &[u8],
    due: &Due,
    out: &mut String,
) -> Result<(), Fail> {
    let size = due.line.len();
    let wide = told_in(alloc, planned, bytes, due, size.saturating_add(9))?;
    let exact = told_in(alloc, planned, bytes, due, size)?;
    let less = told_in(alloc, planned, bytes, due, size.saturating_sub(1))?;
    put_told(out, wide, exact, less)?;
    put_due(due, out)
}

// Puts what the plans make of bytes that are no message.
fn put_refused(
    alloc: Global,
    planned: &PlannedTable,
    bytes: &[u8],
    out: &mut String,
) -> Result<(), Fail> {
    let mut room = room_of(alloc, 60_000)?;
    if room.len() < PLACE {
        return Err(Fail::new("no place"));
    }
    let told = planned.message(bytes, PIECE, &mut room, PLACE);
    let end = told.map(|told| told.1);
    put_str(out, told_of(&room, end, ""))?;
    out.push(' ')?;
    Ok(())
}

/// Puts what becomes of a message by both ways.
pub fn put_both(
    alloc: Global,
    planned: &PlannedTable,
    bytes: &[u8],
    out: &mut String,
) -> Result<(), Fail> {
    match read_message(alloc, planned.table(), bytes) {
        Ok(heard) => {
            let due = due_of(alloc, planned.table(), heard)?;
            put_in_rooms(alloc, planned, bytes, &due, out)
        }
        Err(cause) => {
            put_refused(alloc, planned, bytes, out)?;
            put_cause(out, cause)
        }
    }
}
