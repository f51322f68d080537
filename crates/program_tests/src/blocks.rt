//! Recordings that threads decode side by side. A row is one of a decoding without them: the words and the digits of the recording, and the status and the
//! lines.
use crate::decode::{RECORDINGS, add_files, put_recording};
use crate::forms::FORMS;
use crate::full::DECODED;
use crate::rows::{Kind, each_block};
use crate::sessions::{Stage, begin_anew};
use defmt_blocks::{Cuts, decode_cut};
use defmt_run::Fault;
use defmt_words::{DecodeOptions, Job, job_of};
use std::alloc::Global;
use std::sync::Wait;
use std::test::Fail;
use std::thread::Threads;
use test_rows::{
    bytes_of, count_of, is_same, line_count, parted, put, put_ended, put_number, put_repeated,
    text_of, words_of,
};

// Recordings of tens of thousands of bytes, so that blocks stand behind one another: the last digits are repeated. Of what is told there is the status, and
// how many lines there are.
const LONG: &str = "\
defmtl decode --table hi.elf
7e 00
repeat 0 4000
00 01 7e 00 01 7e 00 7f 00
=
status 9 events with faults 4001, lines 12001, gaps 0, otherwise 0

defmtl decode --table hi-at.elf
7e 00
repeat 0 3000
00 01 7e 00 00 01 03 7a 00 00 01 04 7a 00 7f 00
=
status 9 events with faults 3001, lines 18000, gaps 5999, otherwise 0";

// Recordings with more lines, faults and gaps than the shortest ones have.
const SHORT: &str = "\
defmtl decode --table hi.elf
7e 00 00 01 7e 00 09 09 09 09 09 09 09 00 01 7e 00 7f 00 00 01 7e 00 00 01 01 7a 00 00 01 7e
=
status 9 events with faults 5
-- front 1
INFO  hello
-- E1 Cobs
INFO  hello
-- E2 NoEntry
INFO  hello
-- E11 Trailing
-- tail 2

defmtl decode --table hi-at.elf
7e 00 00 01 7e 00 00 01 01 7a 00 7f 00 00 01 04 7a 00 01 00 00 01 05 7a 00 00 01 09 7a 00 00 01 0a 7a 00 09
=
status 9 events with faults 4
-- front 1
INFO  hello
INFO  hello
-- E2 NoEntry
-- gap 2
INFO  hello
-- E1 Cobs
INFO  hello
-- gap 3
INFO  hello
INFO  hello
-- tail 1";

// How many sides hear a part, and how many bytes in front of a block tell behind which line it stands.
const SIDES: [(u32, usize); 12] = [
    (1, 0),
    (1, 2),
    (1, 5),
    (2, 0),
    (2, 2),
    (2, 5),
    (3, 0),
    (3, 2),
    (3, 5),
    (4, 0),
    (4, 2),
    (4, 5),
];

// Puts what is told of a session with so many threads.
fn put_by_jobs<R: Threads + Wait + Sync>(
    rt: &R,
    alloc: Global,
    line: &str,
    jobs: &str,
    recording: &[u8],
    stage: &mut Stage,
    out: &mut String,
) -> Result<(), Fail> {
    let mut words = String::new(alloc);
    put(&mut words, line);
    put(&mut words, " --jobs ");
    put(&mut words, jobs);
    put_recording(rt, alloc, words.as_str(), recording, stage, out)
}

// Puts what is told of a decoding without threads, and the numbers of threads by which something else is told.
fn put_by_each_number<R: Threads + Wait + Sync>(
    rt: &R,
    alloc: Global,
    line: &str,
    recording: &[u8],
    stage: &mut Stage,
    out: &mut String,
) -> Result<(), Fail> {
    put_recording(rt, alloc, line, recording, stage, out)?;
    for jobs in ["1", "2", "3", "64"] {
        let mut told = String::new(alloc);
        put_by_jobs(rt, alloc, line, jobs, recording, stage, &mut told)?;
        if !is_same(told.as_str(), out.as_str()) {
            put(out, "\notherwise with jobs ");
            put(out, jobs);
        }
    }
    Ok(())
}

// The same of a row.
pub(crate) fn put_side_by_side<R: Threads + Wait + Sync>(
    rt: &R,
    alloc: Global,
    row: &str,
    stage: &mut Stage,
    out: &mut String,
) -> Result<(), Fail> {
    let (line, digits) = parted(row, '\n');
    let recording = bytes_of(alloc, digits)?;
    put_by_each_number(rt, alloc, line, &recording, stage, out)
}

// Puts the first line of what is told, and how many there are behind it, how many of them tell a gap, and how many another answer.
fn put_counts(told: &str, out: &mut String) {
    let (status, lines) = parted(told, '\n');
    put(out, status);
    put(out, ", lines ");
    put_number(out, line_count(lines));
    put(out, ", gaps ");
    put_number(out, count_of(lines, "-- gap"));
    put(out, ", otherwise ");
    put_number(out, count_of(lines, "otherwise"));
}

// Puts how much is told of a decoding of digits the last of which are repeated.
pub(crate) fn put_long_side_by_side<R: Threads + Wait + Sync>(
    rt: &R,
    alloc: Global,
    row: &str,
    stage: &mut Stage,
    out: &mut String,
) -> Result<(), Fail> {
    let (line, lines) = parted(row, '\n');
    let mut digits = String::new(alloc);
    put_repeated(lines, &mut digits)?;
    let recording = bytes_of(alloc, digits.as_str())?;
    let mut told = String::new(alloc);
    put_by_each_number(rt, alloc, line, &recording, stage, &mut told)?;
    put_counts(told.as_str(), out);
    Ok(())
}

// Puts a fault's status and words, and behind it the lines that were written.
fn put_fault(alloc: Global, fault: Fault, written: &[u8], out: &mut String) -> Result<(), Fail> {
    let said = fault.say(alloc)?;
    put(out, "status ");
    put_number(out, u64::from(fault.status()));
    put(out, " ");
    put(out, said.as_str());
    put_ended(text_of(written), out);
    Ok(())
}

// Puts what is told of a decoding by so many sides, with parts that are cut so. The files stand on the shelf.
fn put_cut<R: Threads + Wait + Sync>(
    rt: &R,
    alloc: Global,
    options: &DecodeOptions,
    jobs: u32,
    cuts: Cuts,
    recording: &[u8],
    stage: &mut Stage,
    out: &mut String,
) -> Result<(), Fail> {
    begin_anew(alloc, recording, stage)?;
    let fault = decode_cut(
        rt,
        alloc,
        jobs,
        cuts,
        options,
        &mut stage.source,
        &mut stage.shelf,
        &mut stage.sink,
    );
    put_fault(alloc, fault, stage.sink.held(), out)
}

// Puts the sizes of blocks by which something else is told than is due. A part that has all bytes is cut in the same way by each larger size.
fn put_each_size<R: Threads + Wait + Sync>(
    rt: &R,
    alloc: Global,
    options: &DecodeOptions,
    jobs: u32,
    before: usize,
    recording: &[u8],
    due: &str,
    stage: &mut Stage,
    out: &mut String,
) -> Result<(), Fail> {
    for block in 1..=recording.len() {
        let mut told = String::new(alloc);
        let cuts = Cuts { block, before };
        put_cut(rt, alloc, options, jobs, cuts, recording, stage, &mut told)?;
        if !is_same(told.as_str(), due) {
            put(out, "\notherwise in blocks of ");
            put_number(out, block as u64);
        }
    }
    Ok(())
}

// Puts what is told of a decoding of the whole as one block, and where something else is told.
fn put_each_cut<R: Threads + Wait + Sync>(
    rt: &R,
    alloc: Global,
    options: &DecodeOptions,
    recording: &[u8],
    stage: &mut Stage,
    out: &mut String,
) -> Result<(), Fail> {
    let mut due = String::new(alloc);
    let whole = Cuts {
        block: recording.len(),
        before: 0,
    };
    put_cut(rt, alloc, options, 1, whole, recording, stage, &mut due)?;
    put(out, due.as_str());
    for (jobs, before) in SIDES {
        put_each_size(
            rt,
            alloc,
            options,
            jobs,
            before,
            recording,
            due.as_str(),
            stage,
            out,
        )?;
    }
    Ok(())
}

pub(crate) fn put_cuts<R: Threads + Wait + Sync>(
    rt: &R,
    alloc: Global,
    row: &str,
    stage: &mut Stage,
    out: &mut String,
) -> Result<(), Fail> {
    let (line, digits) = parted(row, '\n');
    let recording = bytes_of(alloc, digits)?;
    let words = words_of(alloc, line)?;
    match job_of(alloc, &words) {
        Ok(Some(Job::Decode(options))) => {
            add_files(rt, alloc, &mut stage.shelf)?;
            put_each_cut(rt, alloc, &options, &recording, stage, out)
        }
        _ => put_fault(alloc, Fault::Words, b"", out),
    }
}

// A recording of at most 4,096 bytes has no block, so all of it is heard in its turn.
#[test]
fn many_threads_tell_what_one_tells(rt: HostRuntime) -> Result<(), Fail> {
    each_block(&rt, rt.alloc(), RECORDINGS, 16, &Kind::SideBySide)?;
    each_block(&rt, rt.alloc(), FORMS, 12, &Kind::SideBySide)?;
    each_block(&rt, rt.alloc(), DECODED, 4, &Kind::SideBySide)
}

#[test]
fn long_recordings_are_told_block_by_block(rt: HostRuntime) -> Result<(), Fail> {
    each_block(&rt, rt.alloc(), LONG, 2, &Kind::LongSideBySide)
}

// Blocks of some bytes are read, by one side to four, from one byte a block to the whole recording.
#[test]
fn blocks_of_any_size_tell_what_a_whole_recording_tells(rt: HostRuntime) -> Result<(), Fail> {
    each_block(&rt, rt.alloc(), RECORDINGS, 16, &Kind::Cut)?;
    each_block(&rt, rt.alloc(), DECODED, 4, &Kind::Cut)
}

#[test]
fn blocks_of_any_size_tell_the_same_in_each_form(rt: HostRuntime) -> Result<(), Fail> {
    each_block(&rt, rt.alloc(), FORMS, 12, &Kind::Cut)?;
    each_block(&rt, rt.alloc(), SHORT, 2, &Kind::Cut)
}
