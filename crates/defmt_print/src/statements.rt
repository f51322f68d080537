//! The lines of a script's statements.
ghost use Rattle.std.specs.Prelude.{◌≡◌, ◌≤◌, ◌<◌, ◌^◌, ◌+◌, ◌++◌, length, IfOk, IfSome, OnOk};
ghost use Rattle.defmt_encode.specs.Carry.{stamp_args};
ghost use Rattle.defmt_frames.specs.Frames.{first_stamp, stamp_number, stamp_step};
ghost use Rattle.defmt_recording.specs.Output.{ended};
ghost use Rattle.defmt_eager.specs.Line.{eager_line};
ghost use Rattle.defmt_print.specs.Printed.{Prints, numbered, numbered_line, statement_lines};
ghost use Rattle.defmt_hints.specs.Written.{Written};
ghost use Rattle.defmt_script.specs.Lawful.{IsSound, stamp_in};
ghost use Rattle.defmt_script.specs.Script.{statements_by};

use defmt_eager::{EagerFault, line, put_line};
use defmt_hints::put;
use defmt_intern::Table;
use defmt_script::{Script, WRITERS, stamps_fit};
use defmt_values::{Args, Statement, Value};
use dl_io::{Bytes, Memory};
use std::alloc::Global;

/// More bytes than most lines have.
pub const LINE_ROOM: usize = 4_096;

// Somewhat more bytes than lines have on average.
const LINE_MEAN: usize = 64;

/// The lines of all statements, writer by writer, with the stamps of their numbers.
pub fn statement_lines(alloc: Global, script: &Script) -> Result<Bytes, Memory>
    ensures { IfOk result (λ out. out.items ≡ statement_lines script.now) }
{
    script.lawful();
    let mut out = Bytes::new(alloc);
    out.reserve(lines_room(script))?;
    let mut args = Args::new(alloc);
    let mut room = [0u8; LINE_ROOM];
    let mut number = 0u32;
    for writer in 0..WRITERS {
        let after = add_writer(
            alloc, script, writer, number, &mut args, &mut room, &mut out,
        )?;
        number = after;
    }
    Ok(out)
}

// Room for the lines of all statements, where they aren't long.
fn lines_room(script: &Script) -> usize {
    let mut count = 0u32;
    for writer in 0..WRITERS {
        count = count.saturating_add(script.count(writer));
    }
    count as usize * LINE_MEAN
}

// Appends the lines of a writer's statements, of which the first has this number. Answers the number behind them. The list takes
// the arguments of one stamp after the other, and the room one line after the other.
fn add_writer(
    alloc: Global,
    script: &Script,
    writer: u8,
    number: u32,
    args: &mut Args,
    room: &mut [u8],
    out: &mut Bytes,
) -> Result<u32, Memory>
    requires writer { writer < length script.now.writers }
    requires few { number + length (statements_by script.now writer) ≤ 4096 }
    ensures count { IfOk result (λ after.
        after ≡ number + length (statements_by script.now writer)) }
    ensures bytes { OnOk result (out.new.items ≡ out.old.items
        ++ numbered (numbered_line script.now) number
        (statements_by script.now writer)) }
{
    script.lawful();
    let count = script.count(writer);
    for place in 0..count {
        let Some(statement) = script.statement(writer, place) else {
            unreachable!();
        };
        add_statement(alloc, script, statement, number + place, args, room, out)?;
    }
    Ok(number + count)
}

// Appends the line of a statement of this number.
fn add_statement(
    alloc: Global,
    script: &Script,
    statement: &Statement,
    number: u32,
    args: &mut Args,
    room: &mut [u8],
    out: &mut Bytes,
) -> Result<(), Memory>
    requires sound { IsSound script.now.table script.now.settings statement.now }
    requires few { number ≤ 4096 }
    ensures { OnOk result (out.new.items ≡ out.old.items
        ++ numbered_line script.now number statement.now) }
{
    script.lawful();
    stamps_fit();
    let table = script.table();
    let stamp = stamp_number(script, number);
    let carried = stamp_in(script, stamp);
    add_line(alloc, table, carried, statement, args, room, out)
}

// The stamp of a number, 0 without stamps.
fn stamp_number(script: &Script, number: u32) -> u64
    requires { number ≤ 4096 }
    ensures { result ≡ stamp_number script.now number }
{
    let (base, step) = stamps(script);
    base + step * u64::from(number)
}

// Writes the line of a statement with a stamp or none, and a newline, to the front of the room.
fn put_ended(
    table: &Table,
    stamp: Option<u64>,
    statement: &Statement,
    room: &mut [u8],
) -> Option<usize>
    ensures { IfSome result (λ end. Written room.old 0 room.new end
        (ended (eager_line table.now.entries (stamp_args stamp)
        statement.now.index statement.now.args))) }
{
    let end = put_line(table, stamp, statement, room, 0)?;
    put(room, end, b"\n")
}

// Appends the line of a statement with a stamp or none, and a newline. The room takes both; where it can't, the list takes the stamp's
// arguments.
fn add_line(
    alloc: Global,
    table: &Table,
    stamp: Option<u64>,
    statement: &Statement,
    args: &mut Args,
    room: &mut [u8],
    out: &mut Bytes,
) -> Result<(), Memory>
    requires { Prints table.now.entries stamp statement.now }
    ensures { OnOk result (out.new.items ≡ out.old.items
        ++ ended (eager_line table.now.entries (stamp_args stamp)
        statement.now.index statement.now.args)) }
{
    match put_ended(table, stamp, statement, room) {
        Some(end) => out.extend_from_slice(&room[..end]),
        None => add_any_line(alloc, table, stamp, statement, args, out),
    }
}

// Appends any line and a newline. The list takes the stamp's arguments.
fn add_any_line(
    alloc: Global,
    table: &Table,
    stamp: Option<u64>,
    statement: &Statement,
    args: &mut Args,
    out: &mut Bytes,
) -> Result<(), Memory>
    requires { Prints table.now.entries stamp statement.now }
    ensures { OnOk result (out.new.items ≡ out.old.items
        ++ ended (eager_line table.now.entries (stamp_args stamp)
        statement.now.index statement.now.args)) }
{
    put_stamp(stamp, args)?;
    match line(alloc, table, args, statement) {
        Ok(text) => out.extend_from_slice(text.as_str().as_bytes())?,
        Err(EagerFault::Wide) => unreachable!(),
        Err(EagerFault::Memory) => return Err(Memory),
    }
    out.push(b'\n')
}

/// The stamp that a message carries: this one, or none where the script has no stamps. Takes no memory.
pub fn stamp_in(script: &Script, stamp: u64) -> Option<u64>
    ensures carried { result ≡ stamp_in script.now.settings.stamp stamp }
    ensures small { stamp < 2 ^ 64 }
{
    match script.stamp() {
        Some(_) => Some(stamp),
        None => None,
    }
}

/// Makes the list that of a stamp's arguments.
pub fn put_stamp(stamp: Option<u64>, args: &mut Args) -> Result<(), Memory>
    ensures { OnOk result (args.new ≡ stamp_args stamp) }
{
    args.clear();
    match stamp {
        Some(number) => args.push(Value::Uint(u128::from(number))),
        None => Ok(()),
    }
}

/// The first stamp of a script and the step to the next, both 0 without stamps. Takes no memory.
pub fn stamps(script: &Script) -> (u64, u64)
    ensures base { result.0 ≡ first_stamp script.now.settings.stamp }
    ensures step { result.1 ≡ stamp_step script.now.settings.stamp }
    ensures within { (result.0 ≤ 281474976710656) × (result.1 ≤ 281474976710656) }
{
    script.lawful();
    match script.stamp() {
        Some((base, step)) => (base, step),
        None => (0, 0),
    }
}
