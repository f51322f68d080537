//! Sources and sinks, in memory and over std.
ghost use Rattle.std.specs.Prelude.{None};

use crate::rows::Kind;
use dl_io::{
    Bytes, Failed, MemSink, MemSource, ReadFault, RepeatSource, Sink, Source, StdSink, StdSource,
    read_all, write_all,
};
use std::alloc::Global;
use std::fmt::Write;
use std::io;
use std::test::Fail;
use std_outside::Input;
use test_rows::{each_line, parted, put_str};

// A source that gives one byte at a time.
#[derive(Drop)]
struct Trickle(MemSource);

impl Source for Trickle {
    ghost left = { λ _. None };

    ghost faults = { λ s. s.0.plan.faults };

    fn read(&mut self, buf: &mut [u8]) -> Result<usize, Failed> {
        let few = buf.len().min(1);
        self.0.read(&mut buf[..few])
    }

    fn faults(&self) -> u64 {
        self.0.faults()
    }
}

// A reader whose every read fails.
#[derive(Drop)]
struct Broken;

impl io::Read for Broken {
    fn read(&mut self, _buf: &mut [u8]) -> io::Result<usize> {
        Err(io::Error::from(io::ErrorKind::Other))
    }
}

// Puts the bytes as text, or `nothing`.
fn put_plain(bytes: &[u8], out: &mut String) -> Result<(), Fail> {
    if bytes.is_empty() {
        return put_str(out, "nothing");
    }
    put_str(out, str::from_utf8(bytes)?)
}

fn put_fault(fault: ReadFault, out: &mut String) -> Result<(), Fail> {
    match fault {
        ReadFault::Failed => put_str(out, "failed"),
        ReadFault::Long { taken } => Ok(write!(out, "long {taken}")?),
        ReadFault::Memory => put_str(out, "memory"),
    }
}

/// Puts what a read or fetch of a whole input gave.
pub fn put_input(answer: Result<Bytes, ReadFault>, out: &mut String) -> Result<(), Fail> {
    match answer {
        Ok(all) => put_plain(all.as_slice(), out),
        Err(fault) => put_fault(fault, out),
    }
}

fn add_numbers(list: &mut Bytes, text: &str) -> Result<(), Fail> {
    for number in text.split(',') {
        list.push(number.parse::<u8>()?)?;
    }
    Ok(())
}

// The numbers of the calls that are to fail; `-` for none.
fn fails_of(alloc: Global, text: &str) -> Result<Bytes, Fail> {
    let mut fails = Bytes::new(alloc);
    if text != "-" {
        add_numbers(&mut fails, text)?;
    }
    Ok(fails)
}

// Reads whole inputs, each with its limit, and puts what came and the count of faults.
fn put_reads<S: Source>(
    alloc: Global,
    src: &mut S,
    limits: &str,
    out: &mut String,
) -> Result<(), Fail> {
    for limit in limits.split_whitespace() {
        let limit = limit.parse::<u32>()? as usize;
        put_input(read_all(alloc, src, limit), out)?;
        put_str(out, "; ")?;
    }
    Ok(write!(out, "{} faults", src.faults())?)
}

// A source, its bytes, its calls that are to fail and the limits of reads of a whole input.
const SOURCES: &str = "\
memory hello - 5 0 = hello; nothing; 0 faults
trickle hello - 9 = hello; 0 faults
memory hello - 1 2 2 = long 2; long 3; nothing; 0 faults
memory hello 0 9 9 = failed; hello; 1 faults
trickle hello 2,200 9 9 = failed; llo; 1 faults
std hello - 9 = hello; 0 faults
broken - - 9 = failed; 1 faults
input hello - 1 9 9 = long 2; llo; nothing; 0 faults
broken_input - - 9 = failed; 1 faults";

fn memory(alloc: Global, bytes: &str, fails: &str) -> Result<MemSource, Fail> {
    let bytes = Bytes::from_slice(alloc, bytes.as_bytes())?;
    Ok(MemSource::new(bytes, fails_of(alloc, fails)?))
}

// Reads by the source of the program.
fn put_read_by_program<R: io::Read + Drop>(
    alloc: Global,
    reader: R,
    limits: &str,
    out: &mut String,
) -> Result<(), Fail> {
    put_reads(alloc, &mut Input::new(alloc, reader)?, limits, out)
}

pub fn put_sources(alloc: Global, row: &str, out: &mut String) -> Result<(), Fail> {
    let (form, rest) = parted(row, ' ');
    let (bytes, rest) = parted(rest, ' ');
    let (fails, limits) = parted(rest, ' ');
    match form {
        "memory" => put_reads(alloc, &mut memory(alloc, bytes, fails)?, limits, out),
        "trickle" => put_reads(
            alloc,
            &mut Trickle(memory(alloc, bytes, fails)?),
            limits,
            out,
        ),
        "std" => put_reads(alloc, &mut StdSource::new(bytes.as_bytes()), limits, out),
        "broken" => put_reads(alloc, &mut StdSource::new(Broken), limits, out),
        "input" => put_read_by_program(alloc, bytes.as_bytes(), limits, out),
        "broken_input" => put_read_by_program(alloc, Broken, limits, out),
        _ => Err(Fail::new("no source")),
    }
}

#[test]
fn an_input_is_read_to_its_end_unless_a_read_fails_or_it_is_too_long(
    rt: HostRuntime,
) -> Result<(), Fail> {
    each_line(rt.alloc(), SOURCES, 9, &Kind::Sources)
}

// Inputs of so many sevens, read with the limit 100,000.
const LARGE: &str = "\
100000 = 100000 bytes, all 7
100001 = long 100001";

fn put_sevens(bytes: &[u8], out: &mut String) -> Result<(), Fail> {
    let same = bytes.iter().all(|byte| *byte == 7);
    let which = if same { "all 7" } else { "not all 7" };
    Ok(write!(out, "{} bytes, {which}", bytes.len())?)
}

pub fn put_large(alloc: Global, count: &str, out: &mut String) -> Result<(), Fail> {
    let mut src = RepeatSource::new(7, count.parse::<u64>()?);
    match read_all(alloc, &mut src, 100_000) {
        Ok(all) => put_sevens(all.as_slice(), out),
        Err(fault) => put_fault(fault, out),
    }
}

#[test]
fn a_large_input_is_read_whole_up_to_the_limit(rt: HostRuntime) -> Result<(), Fail> {
    each_line(rt.alloc(), LARGE, 2, &Kind::Large)
}

// A sink that takes one byte at a time.
#[derive(Drop)]
struct Narrow(MemSink);

impl Sink for Narrow {
    ghost held = { λ _. None };

    ghost faults = { λ s. s.0.plan.faults };

    fn write(&mut self, buf: &[u8]) -> Result<usize, Failed> {
        let few = buf.len().min(1);
        self.0.write(&buf[..few])
    }

    fn faults(&self) -> u64 {
        self.0.faults()
    }
}

fn put_all<K: Sink>(sink: &mut K, bytes: &[u8], out: &mut String) -> Result<(), Fail> {
    match write_all(sink, bytes) {
        Ok(()) => put_str(out, "ok"),
        Err(Failed) => put_str(out, "failed"),
    }
}

fn put_once<K: Sink>(sink: &mut K, bytes: &[u8], out: &mut String) -> Result<(), Fail> {
    match sink.write(bytes) {
        Ok(count) => Ok(write!(out, "{count}")?),
        Err(Failed) => put_str(out, "failed"),
    }
}

// Writes the bytes of each step as a whole, or once, and puts what came of it and the count of faults.
fn put_writes<K: Sink>(sink: &mut K, steps: &str, out: &mut String) -> Result<(), Fail> {
    for step in steps.split('|') {
        let (what, bytes) = parted(step, ' ');
        if what == "all" {
            put_all(sink, bytes.as_bytes(), out)?;
        } else {
            put_once(sink, bytes.as_bytes(), out)?;
        }
        put_str(out, "; ")?;
    }
    Ok(write!(out, "{} faults", sink.faults())?)
}

// A sink, its room, its calls that are to fail and the writes.
const SINKS: &str = "\
memory 64 -|all hello|all  = ok; ok; 0 faults; held hello
memory 64 0|all hello = failed; 1 faults; held nothing
narrow 64 3|all hello|all lo = failed; ok; 1 faults; held hello
memory 3 -|once hello|once |once lo = 3; 0; failed; 1 faults; held hel
std 5 -|all hello|all ! = ok; failed; 1 faults; held hello";

fn sink(alloc: Global, room: &str, fails: &str) -> Result<MemSink, Fail> {
    let mut held = Bytes::new(alloc);
    held.reserve(room.parse::<u16>()? as usize)?;
    if !held.is_empty() {
        return Err(Fail::new("a new list has bytes"));
    }
    Ok(MemSink::new(held, fails_of(alloc, fails)?))
}

fn put_held(held: &[u8], out: &mut String) -> Result<(), Fail> {
    put_str(out, "; held ")?;
    put_plain(held, out)
}

fn put_memory(sink: MemSink, steps: &str, out: &mut String) -> Result<(), Fail> {
    let mut sink = sink;
    put_writes(&mut sink, steps, out)?;
    put_held(sink.held(), out)
}

fn put_narrow(sink: MemSink, steps: &str, out: &mut String) -> Result<(), Fail> {
    let mut sink = Narrow(sink);
    put_writes(&mut sink, steps, out)?;
    put_held(sink.0.held(), out)
}

// Into a slice of five bytes by the adapter.
fn put_std(steps: &str, out: &mut String) -> Result<(), Fail> {
    let mut kept = [0; 5];
    put_writes(&mut StdSink::new(kept.as_mut_slice()), steps, out)?;
    put_held(&kept, out)
}

pub fn put_sinks(alloc: Global, row: &str, out: &mut String) -> Result<(), Fail> {
    let Some((form, steps)) = row.split_once('|') else {
        return Err(Fail::new("no steps"));
    };
    let (form, rest) = parted(form, ' ');
    let (room, fails) = parted(rest, ' ');
    match form {
        "memory" => put_memory(sink(alloc, room, fails)?, steps, out),
        "narrow" => put_narrow(sink(alloc, room, fails)?, steps, out),
        "std" => put_std(steps, out),
        _ => Err(Fail::new("no sink")),
    }
}

#[test]
fn all_bytes_are_written_unless_a_write_fails_or_there_is_no_room(
    rt: HostRuntime,
) -> Result<(), Fail> {
    each_line(rt.alloc(), SINKS, 5, &Kind::Sinks)
}
