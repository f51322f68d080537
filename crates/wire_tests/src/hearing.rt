//! Recordings that a listener hears.
ghost use Rattle.std.specs.Prelude.{None};

use crate::ears::{Ear, Scribe};
use crate::rows::Kind;
use defmt_listen::{ListenFault, listen, listen_bytes};
use dl_io::{Bytes, Failed, MemSink, MemSource, RepeatSource, Source};
use std::alloc::Global;
use std::fmt::Write;
use std::test::Fail;
use test_rows::{bytes_of, each_line, put_str};

// The digits of a recording, of a read and of a write that fail, and the answer and what is printed, with a point for each
// newline. A piece of one byte is asked for, one of two is kept, and a longer one is left out; a fault has a letter alone.
const HEARD: &str = "\
07 00 61 62 00 00 63 00 09/ / = 2 faults, fab.c.t
07 00 61 62 00 00 63 00 09/01/ = source, fab.c.
07 00 61 62 00 00 63 00 09/ /01 = sink, fab.c.
00 61 62 00 63 64 00 65 66 67 00 68 00 69 6a 00/ / = 0 faults, ab.cd.h.ij.
61 62 63 00 65 66 67 00/ / = 1 faults, f
00 61 62 63 00/ / = 0 faults, nothing";

// A byte and how often the source gives it, and the answer, what is printed, and for how many bytes the source was asked at most
// at a time.
const REPEATED: &str = "\
0 268435457 = too long, nothing, 65536 at most
0 200000 = 0 faults, nothing, 65536 at most";

// The digits of bytes at hand and of a write that fails, and the answer and what is printed.
const AT_HAND: &str = "\
07 00 61 62 00 00 63 00 09/ = 2 faults, fab.c.t
07 00 61 62 00 00 63 00 09/01 = sink, fab.c.
00 61 62 00/00 = sink, nothing
/ = 0 faults, nothing";

// A source that knows for how many bytes it was asked at most at a time.
#[derive(Drop)]
struct Asked {
    source: RepeatSource,
    most: usize,
}

impl Source for Asked {
    ghost left = { λ _. None };

    ghost faults = { λ _. 0 };

    fn read(&mut self, buf: &mut [u8]) -> Result<usize, Failed> {
        self.most = self.most.max(buf.len());
        self.source.read(buf)
    }

    fn faults(&self) -> u64 {
        0
    }
}

fn fault_of(fault: ListenFault) -> &'static str {
    match fault {
        ListenFault::Source => "source, ",
        ListenFault::Sink => "sink, ",
        ListenFault::Long => "too long, ",
        ListenFault::Memory => "memory, ",
    }
}

fn put_answer(answer: Result<u64, ListenFault>, out: &mut String) -> Result<(), Fail> {
    match answer {
        Ok(count) => Ok(write!(out, "{count} faults, ")?),
        Err(fault) => put_str(out, fault_of(fault)),
    }
}

// Puts the lines that were written, with a point for each newline.
fn put_letters(written: &[u8], out: &mut String) -> Result<(), Fail> {
    if written.is_empty() {
        put_str(out, "nothing")?;
    }
    for byte in written {
        out.push(if *byte == b'\n' {
            '.'
        } else {
            char::from(*byte)
        })?;
    }
    Ok(())
}

// A source of these bytes, which fails at the reads with these numbers.
fn source_of(alloc: Global, digits: &str, fails: &str) -> Result<MemSource, Fail> {
    let given = Bytes::from_vec(bytes_of(alloc, digits)?);
    Ok(MemSource::new(given, Bytes::from_vec(bytes_of(alloc, fails)?)))
}

// A sink with room, which fails at the writes with these numbers.
fn sink_of(alloc: Global, fails: &str) -> Result<MemSink, Fail> {
    let fails = Bytes::from_vec(bytes_of(alloc, fails)?);
    let mut held = Bytes::new(alloc);
    held.reserve(1_048_576)?;
    Ok(MemSink::new(held, fails))
}

fn put_heard_of<S: Source>(
    alloc: Global,
    source: &mut S,
    fails: &str,
    out: &mut String,
) -> Result<(), Fail> {
    let mut sink = sink_of(alloc, fails)?;
    let ear = Ear::new(alloc);
    put_answer(listen(alloc, source, &mut sink, ear, Scribe), out)?;
    put_letters(sink.held(), out)
}

pub fn put_heard(alloc: Global, row: &str, out: &mut String) -> Result<(), Fail> {
    let (digits, fails) = row.split_once('/').unwrap_or((row, ""));
    let (reads, writes) = fails.split_once('/').unwrap_or((fails, ""));
    let mut source = source_of(alloc, digits, reads)?;
    put_heard_of(alloc, &mut source, writes, out)
}

fn put_listened(alloc: Global, bytes: &[u8], fails: &str, out: &mut String) -> Result<(), Fail> {
    if bytes.len() > 65_536 {
        return Err(Fail::new("there are too many bytes"));
    }
    let mut sink = sink_of(alloc, fails)?;
    let ear = Ear::new(alloc);
    put_answer(listen_bytes(alloc, bytes, &mut sink, ear, Scribe), out)?;
    put_letters(sink.held(), out)
}

pub fn put_at_hand(alloc: Global, row: &str, out: &mut String) -> Result<(), Fail> {
    let (digits, fails) = row.split_once('/').unwrap_or((row, ""));
    let bytes = bytes_of(alloc, digits)?;
    put_listened(alloc, &bytes, fails, out)
}

// A source that gives a byte so often.
fn repeat_of(row: &str) -> Result<Asked, Fail> {
    let (byte, count) = row.split_once(' ').unwrap_or((row, ""));
    let source = RepeatSource::new(byte.parse::<u8>()?, count.parse::<u64>()?);
    Ok(Asked { source, most: 0 })
}

pub fn put_repeated(alloc: Global, row: &str, out: &mut String) -> Result<(), Fail> {
    let mut source = repeat_of(row)?;
    put_heard_of(alloc, &mut source, "", out)?;
    Ok(write!(out, ", {} at most", source.most)?)
}

#[test]
fn a_recording_is_heard_in_parts_up_to_a_fault_or_its_limit(rt: HostRuntime) -> Result<(), Fail> {
    each_line(rt.alloc(), HEARD, 6, &Kind::Heard)?;
    each_line(rt.alloc(), AT_HAND, 4, &Kind::AtHand)?;
    each_line(rt.alloc(), REPEATED, 2, &Kind::Repeated)
}
