//! Sessions over sources, shelves and sinks in memory.
use crate::commands::{put_bytes, put_length};
use crate::device::put_by_writer;
use crate::live::put_verdict;
use crate::rows::Kind;
use crate::shares::put_marked;
use crate::steering::put_heard;
use crate::terminals::put_order;
use crate::told::{put_account, put_got};
use defmt_run::{Gate, OpenGate, Outcome, session};
use dl_io::{Bytes, MemShelf, MemSink, MemSource, Source};
use std::alloc::Global;
use std::sync::Wait;
use std::test::Fail;
use std::thread::Threads;
use test_rows::{is_same, put, put_ended, put_number, text_of, words_of};

// What a session reads, where its files stand, and what it writes into.
#[derive(Drop)]
pub(crate) struct Stage {
    pub source: MemSource,
    pub shelf: MemShelf,
    pub sink: MemSink,
}

// A stage without files, whose source gives nothing and whose sink has no room.
pub(crate) fn empty_stage(alloc: Global) -> Stage {
    Stage {
        source: MemSource::new(Bytes::new(alloc), Bytes::new(alloc)),
        shelf: MemShelf::new(alloc, Bytes::new(alloc)),
        sink: MemSink::new(Bytes::new(alloc), Bytes::new(alloc)),
    }
}

// The number of the call that fails, where it is this one of the three that fails.
fn fails_of(alloc: Global, who: &str, name: &str, call: u8) -> Result<Bytes, Fail> {
    let mut fails = Bytes::new(alloc);
    if is_same(who, name) {
        fails.push(call)?;
    }
    Ok(fails)
}

fn source_of(
    alloc: Global,
    bytes: &[u8],
    end: &[u8],
    who: &str,
    call: u8,
) -> Result<MemSource, Fail> {
    let mut given = Bytes::from_slice(alloc, bytes)?;
    given.extend_from_slice(end)?;
    Ok(MemSource::new(given, fails_of(alloc, who, "source", call)?))
}

// The room of a sink: more than any output has, unless it is the room that there is too little of.
fn room_of(who: &str, call: u8) -> usize {
    if is_same(who, "room") {
        usize::from(call)
    } else {
        1_048_576
    }
}

fn sink_of(alloc: Global, who: &str, call: u8) -> Result<MemSink, Fail> {
    let mut held = Bytes::new(alloc);
    held.reserve(room_of(who, call))?;
    Ok(MemSink::new(held, fails_of(alloc, who, "sink", call)?))
}

// Makes a stage one without files, whose source gives these bytes and those behind them. Of `source`, `shelf` and `sink` the one with this name fails at
// the call with this number; the name `room` gives the sink room for so many bytes.
pub(crate) fn set_failing(
    alloc: Global,
    bytes: &[u8],
    end: &[u8],
    who: &str,
    call: u8,
    stage: &mut Stage,
) -> Result<(), Fail> {
    stage.source = source_of(alloc, bytes, end, who, call)?;
    stage.shelf = MemShelf::new(alloc, fails_of(alloc, who, "shelf", call)?);
    stage.sink = sink_of(alloc, who, call)?;
    Ok(())
}

// The same where nothing fails.
pub(crate) fn set_stage(
    alloc: Global,
    bytes: &[u8],
    end: &[u8],
    stage: &mut Stage,
) -> Result<(), Fail> {
    set_failing(alloc, bytes, end, "nobody", 0, stage)
}

// Makes the source of a stage give these bytes, and its sink empty; the files stay on the shelf.
pub(crate) fn begin_anew(alloc: Global, bytes: &[u8], stage: &mut Stage) -> Result<(), Fail> {
    stage.source = source_of(alloc, bytes, "".as_bytes(), "nobody", 0)?;
    stage.sink = sink_of(alloc, "nobody", 0)?;
    Ok(())
}

// What a session on the words of this line comes to.
pub(crate) fn outcome_of<S: Source, G: Gate + Sync, R: Threads + Wait + Sync>(
    rt: &R,
    alloc: Global,
    line: &str,
    source: &mut S,
    shelf: &mut MemShelf,
    sink: &mut MemSink,
    gate: &G,
) -> Result<Outcome, Fail> {
    let words = words_of(alloc, line)?;
    Ok(session(rt, alloc, &words, source, shelf, sink, gate))
}

// Puts the status of an outcome and its words, as `status 0 fine`.
pub(crate) fn put_status(alloc: Global, outcome: &Outcome, out: &mut String) -> Result<(), Fail> {
    let said = outcome.say(alloc)?;
    put(out, "status ");
    put_number(out, u64::from(outcome.status));
    put(out, " ");
    put(out, said.as_str());
    Ok(())
}

// Puts the status of an outcome, and behind it the lines that were written.
pub(crate) fn put_lines(
    alloc: Global,
    outcome: &Outcome,
    written: &[u8],
    out: &mut String,
) -> Result<(), Fail> {
    put_status(alloc, outcome, out)?;
    put_ended(text_of(written), out);
    Ok(())
}

fn put_told(
    alloc: Global,
    kind: &Kind,
    outcome: &Outcome,
    written: &[u8],
    out: &mut String,
) -> Result<(), Fail> {
    match kind {
        Kind::Digits => put_bytes(alloc, outcome, written, out),
        Kind::Length => put_length(alloc, outcome, written, out),
        Kind::Account => put_account(alloc, outcome, out),
        Kind::Live => put_verdict(alloc, outcome, written, out),
        Kind::Talkers => put_order(alloc, outcome, written, out),
        Kind::Ordered => put_heard(alloc, outcome, written, out),
        Kind::Device => put_by_writer(alloc, outcome, written, out),
        Kind::Held => put_got(alloc, outcome, written, out),
        Kind::Turns => put_marked(alloc, outcome, written, out),
        _ => put_lines(alloc, outcome, written, out),
    }
}

// Puts what rows of a kind tell of a session on the words of this line.
pub(crate) fn put_session<G: Gate + Sync, R: Threads + Wait + Sync>(
    rt: &R,
    alloc: Global,
    kind: &Kind,
    line: &str,
    stage: &mut Stage,
    gate: &G,
    out: &mut String,
) -> Result<(), Fail> {
    let outcome = outcome_of(
        rt,
        alloc,
        line,
        &mut stage.source,
        &mut stage.shelf,
        &mut stage.sink,
        gate,
    )?;
    put_told(alloc, kind, &outcome, stage.sink.held(), out)
}

// Puts what rows of a kind tell of a session on a script, behind whose last line a newline stands.
pub(crate) fn put_played<R: Threads + Wait + Sync>(
    rt: &R,
    alloc: Global,
    kind: &Kind,
    line: &str,
    script: &str,
    stage: &mut Stage,
    out: &mut String,
) -> Result<(), Fail> {
    let end = if script.is_empty() { "" } else { "\n" };
    set_stage(alloc, script.as_bytes(), end.as_bytes(), stage)?;
    put_session(rt, alloc, kind, line, stage, &OpenGate, out)
}

fn written_in<R: Threads + Wait + Sync>(
    rt: &R,
    alloc: Global,
    line: &str,
    script: &str,
    stage: &mut Stage,
) -> Result<Bytes, Fail> {
    let mut told = String::new(alloc);
    put_played(rt, alloc, &Kind::Length, line, script, stage, &mut told)?;
    Ok(Bytes::from_slice(alloc, stage.sink.held())?)
}

// What a session on a script writes.
pub(crate) fn written_of<R: Threads + Wait + Sync>(
    rt: &R,
    alloc: Global,
    line: &str,
    script: &str,
) -> Result<Bytes, Fail> {
    let mut stage = empty_stage(alloc);
    written_in(rt, alloc, line, script, &mut stage)
}

// Puts the table of a script on a shelf.
pub(crate) fn add_table<R: Threads + Wait + Sync>(
    rt: &R,
    alloc: Global,
    name: &str,
    script: &str,
    shelf: &mut MemShelf,
) -> Result<(), Fail> {
    let table = written_of(rt, alloc, "defmtl table", script)?;
    Ok(shelf.put(name, table)?)
}
