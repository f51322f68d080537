//! Inputs beyond their limits. A row is what the source gives and how often, and the words, and the status.
use crate::decode::HI;
use crate::rows::{Kind, each_block};
use crate::sessions::{Stage, add_table, outcome_of, put_lines};
use defmt_run::OpenGate;
use dl_io::{Bytes, MemShelf, RepeatSource};
use std::alloc::Global;
use std::sync::Wait;
use std::test::Fail;
use std::thread::Threads;
use test_rows::{is_same, number_of, parted, zeros_of};

const LONG: &str = "\
newlines 4194305 defmtl run
=
status 8 too long

zeros 268435457 defmtl decode --table hi.elf
=
status 8 too long

zeros 0 defmtl decode --table long.elf
=
status 8 too long";

const LONG_IMAGES: &str = "\
zeros 268435457 defmtl dump --table hi.elf
=
status 8 too long

zeros 0 defmtl dump --table long.elf
=
status 8 too long";

// Puts a table on the shelf, and a file with one byte more than a table's file may have.
fn add_files<R: Threads + Wait + Sync>(
    rt: &R,
    alloc: Global,
    shelf: &mut MemShelf,
) -> Result<(), Fail> {
    add_table(rt, alloc, "hi.elf", HI, shelf)?;
    let long = zeros_of(alloc, 67_108_865)?;
    Ok(shelf.put("long.elf", Bytes::from_vec(long))?)
}

// A source of so many newlines or zeros.
fn repeat_of(name: &str, count: &str) -> Result<RepeatSource, Fail> {
    let byte = if is_same(name, "newlines") { b'\n' } else { 0 };
    Ok(RepeatSource::new(byte, number_of(count)?))
}

fn put_repeated<R: Threads + Wait + Sync>(
    rt: &R,
    alloc: Global,
    line: &str,
    source: &mut RepeatSource,
    stage: &mut Stage,
    out: &mut String,
) -> Result<(), Fail> {
    add_files(rt, alloc, &mut stage.shelf)?;
    let outcome = outcome_of(
        rt,
        alloc,
        line,
        source,
        &mut stage.shelf,
        &mut stage.sink,
        &OpenGate,
    )?;
    put_lines(alloc, &outcome, stage.sink.held(), out)
}

// Puts what is told where a source gives one byte so often: its name, how often, and the words.
pub(crate) fn put_long<R: Threads + Wait + Sync>(
    rt: &R,
    alloc: Global,
    row: &str,
    stage: &mut Stage,
    out: &mut String,
) -> Result<(), Fail> {
    let (name, rest) = parted(row, ' ');
    let (count, line) = parted(rest, ' ');
    let mut source = repeat_of(name, count)?;
    put_repeated(rt, alloc, line, &mut source, stage, out)
}

#[test]
fn longer_inputs_are_too_long(rt: HostRuntime) -> Result<(), Fail> {
    each_block(&rt, rt.alloc(), LONG, 3, &Kind::Long)
}

#[test]
fn longer_images_are_too_long(rt: HostRuntime) -> Result<(), Fail> {
    each_block(&rt, rt.alloc(), LONG_IMAGES, 2, &Kind::Long)
}
