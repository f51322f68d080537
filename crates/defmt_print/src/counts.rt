//! Counts of the statements of a run.
ghost use Rattle.std.specs.Prelude.{[], ◌≡◌, ◌≤◌, ◌++◌, ◌==◌, sum_by, length, IfOk, OnOk};
ghost use Rattle.defmt_encode.specs.Placed.{place_in};
ghost use Rattle.defmt_print.specs.Printed.{count_line, is_of_level, level_line, message_size, summary, writer_count_line};

use crate::statements::stamp_in;
use defmt_encode::{MESSAGE_LIMIT, message};
use defmt_hooks::{Level, level_of};
use defmt_intern::Profile;
use defmt_logger::{Mark, Tape};
use defmt_recording::add_count;
use defmt_script::Script;
use dl_io::{Bytes, Memory};
use std::alloc::Global;

/// How many statements a run had, of each level and of each of the writers 0 to 3, and how many bytes their messages had.
pub fn summary(alloc: Global, script: &Script, tape: &Tape) -> Result<Bytes, Memory>
    requires { length tape.now.marks ≤ 4096 }
    ensures { IfOk result (λ out. out.items ≡ summary script.now tape.now.marks) }
{
    let mut out = Bytes::new(alloc);
    add_summary(alloc, script, tape, &mut out)?;
    Ok(out)
}

// Puts the lines of the summary where nothing stands yet.
fn add_summary(alloc: Global, script: &Script, tape: &Tape, out: &mut Bytes) -> Result<(), Memory>
    requires few { length tape.now.marks ≤ 4096 }
    requires empty { out.old.items ≡ [] }
    ensures { OnOk result (out.new.items ≡ summary script.now tape.now.marks) }
{
    let marks = tape.as_slice();
    add_line(alloc, b"lines ", tape.len() as u64, out)?;
    add_level(alloc, script, marks, b"trace ", Level::Trace, out)?;
    add_level(alloc, script, marks, b"debug ", Level::Debug, out)?;
    add_level(alloc, script, marks, b"info ", Level::Info, out)?;
    add_level(alloc, script, marks, b"warn ", Level::Warn, out)?;
    add_level(alloc, script, marks, b"error ", Level::Error, out)?;
    add_writer(alloc, marks, 0, out)?;
    add_writer(alloc, marks, 1, out)?;
    add_writer(alloc, marks, 2, out)?;
    add_writer(alloc, marks, 3, out)?;
    add_line(alloc, b"bytes ", messages_size(script, marks), out)
}

// Appends a line with a number behind these bytes.
fn add_line(alloc: Global, front: &[u8], count: u64, out: &mut Bytes) -> Result<(), Memory>
    ensures { OnOk result (out.new.items ≡ out.old.items ++ count_line front.now count) }
{
    add_count(alloc, front, count, out)?;
    out.push(b'\n')
}

// Appends the line of a level.
fn add_level(
    alloc: Global,
    script: &Script,
    marks: &[Mark],
    front: &[u8],
    level: Level,
    out: &mut Bytes,
) -> Result<(), Memory>
    ensures { OnOk result (out.new.items ≡ out.old.items
        ++ level_line script.now marks.now front.now level) }
{
    let count = marks
        .iter()
        .filter(|mark| is_of_level(script, level, mark))
        .count();
    add_line(alloc, front, count as u64, out)
}

// Appends the line of a writer.
fn add_writer(alloc: Global, marks: &[Mark], writer: u8, out: &mut Bytes) -> Result<(), Memory>
    ensures { OnOk result (out.new.items ≡ out.old.items ++ writer_count_line marks.now writer) }
{
    let count = marks.iter().filter(|mark| mark.writer == writer).count();
    add_count(alloc, b"writer ", u64::from(writer), out)?;
    add_line(alloc, b" ", count as u64, out)
}

// Whether the statement of a mark is of a level.
#[tactic(auto, unfolding(crate::specs::Printed::is_of_level))]
fn is_of_level(script: &Script, level: Level, mark: &Mark) -> bool
    ensures { result ≡ is_of_level script.now level mark.now }
{
    let Some(statement) = script.statement(mark.writer, mark.place) else {
        return false;
    };
    let Some(entry) = script.table().get(statement.index) else {
        return false;
    };
    match level_of(&entry.tag) {
        Some(other) => level.rank() == other.rank(),
        None => false,
    }
}

// How many bytes the messages of the marks have together.
fn messages_size(script: &Script, marks: &[Mark]) -> u64
    requires { length marks.now ≤ 4096 }
    ensures { result ≡ sum_by (message_size script.now) marks.now }
{
    let mut buffer = [0u8; MESSAGE_LIMIT];
    let mut size = 0u64;
    for mark in marks {
        size += message_size(script, mark, &mut buffer) as u64;
    }
    size
}

// The place of the first mark.
fn first_place(script: &Script) -> Option<u16>
    ensures { result ≡ place_in script.now.settings.profile 0 }
{
    match script.profile() {
        Profile::One => None,
        Profile::Two => Some(0),
    }
}

// How many bytes the message of a mark has, which is written to the buffer at the first place.
fn message_size(script: &Script, mark: &Mark, buffer: &mut [u8]) -> usize
    requires { 2000 ≤ length buffer.old }
    ensures size { result ≡ message_size script.now mark.now }
    ensures few { result ≤ 2000 }
{
    script.lawful();
    let table = script.table();
    let Some(statement) = script.statement(mark.writer, mark.place) else {
        return 0;
    };
    let first = first_place(script);
    let carried = stamp_in(script, mark.stamp);
    match message(table, first, carried, statement, buffer) {
        Ok(size) => size,
        Err(_) => unreachable!(),
    }
}
