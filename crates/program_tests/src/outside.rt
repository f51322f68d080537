//! Calls of the outside that fail.
use crate::decode::add_files;
use crate::rows::{Kind, each_block};
use crate::sessions::{Stage, put_session, set_failing};
use crate::shares::{put_share, put_whole};
use defmt_run::OpenGate;
use std::alloc::Global;
use std::sync::Wait;
use std::test::Fail;
use std::thread::Threads;
use test_rows::{is_same, parted, put, put_number};

// Calls that fail one after the other, until none does; of a sink without room for all, room for one byte more after the other. A row is who fails, the
// words and what the source gives. Told are of the sessions with a fault what each comes to, how many marks there are and how much was written, each once;
// then how many of them there are, and what comes of the one without. So a source that gives all at one read has its end found by a second, and isn't read
// again. The recordings have a front, a frame and a tail. The images are those of a control block in whose buffer a frame waits.
const TURNS: &str = "\
source defmtl run --group
ring 64
s a defmt_info a {=u8}
s b defmt_warn b {=bool}
w 0 a 1
w 1 b true
w 0 a 2
w 1 b false
=
status 3 source, 0 marks, nothing
2 calls
status 0 fine
INFO  a 1
INFO  a 2
WARN  b true
WARN  b false

sink defmtl run --group
ring 64
s a defmt_info a {=u8}
s b defmt_warn b {=bool}
w 0 a 1
w 1 b true
w 0 a 2
w 1 b false
=
status 4 sink, 4 marks, nothing
1 calls
status 0 fine
INFO  a 1
INFO  a 2
WARN  b true
WARN  b false

room defmtl run --group
ring 64
s a defmt_info a {=u8}
s b defmt_warn b {=bool}
w 0 a 1
w 1 b true
w 0 a 2
w 1 b false
=
status 4 sink, 4 marks, nothing
status 4 sink, 4 marks, a front
47 calls
status 0 fine
INFO  a 1
INFO  a 2
WARN  b true
WARN  b false

room defmtl term
s hi defmt_info hello
w 0 hi
t 0 3 a
=
status 4 sink, 1 marks, nothing
status 4 sink, 1 marks, a front
28 calls
status 0 fine
INFO  hello
== terminal 3
a

sink defmtl steer
d 0 warn
s b defmt_warn b
w 0 b
=
status 4 sink, 0 marks, nothing
1 calls
status 0 fine
WARN  b
-- level warn from turn 0

source defmtl run
s hi defmt_info hello
w 0 hi
=
status 3 source, 0 marks, nothing
2 calls
status 0 fine
INFO  hello

sink defmtl run
s hi defmt_info hello
w 0 hi
=
status 4 sink, 1 marks, nothing
1 calls
status 0 fine
INFO  hello

source defmtl print
s hi defmt_info hello
w 0 hi
=
status 3 source, 0 marks, nothing
2 calls
status 0 fine
INFO  hello

source defmtl gen 10
=
0 calls
status 0 fine
lines 10
trace 2
debug 2
info 2
warn 2
error 2
writer 0 3
writer 1 3
writer 2 2
writer 3 2
bytes 164

shelf defmtl decode --table hi.elf
~\x00\x00\x01~\x00
=
status 7 shelf, 0 marks, nothing
2 calls
status 9 events with faults 2
-- front 1
INFO  hello
-- tail 1

source defmtl decode --table hi.elf
~\x00\x00\x01~\x00
=
status 3 source, 0 marks, nothing
status 3 source, 0 marks, a front
2 calls
status 9 events with faults 2
-- front 1
INFO  hello
-- tail 1

source defmtl decode --table hi.elf --jobs 2
~\x00\x00\x01~\x00
=
status 3 source, 0 marks, nothing
status 3 source, 0 marks, a front
2 calls
status 9 events with faults 2
-- front 1
INFO  hello
-- tail 1

sink defmtl decode --table hi.elf
~\x00\x00\x01~\x00
=
status 4 sink, 0 marks, nothing
status 4 sink, 0 marks, a front
3 calls
status 9 events with faults 2
-- front 1
INFO  hello
-- tail 1

sink defmtl decode --table hi.elf --jobs 2
~\x00\x00\x01~\x00
=
status 4 sink, 0 marks, nothing
status 4 sink, 0 marks, a front
3 calls
status 9 events with faults 2
-- front 1
INFO  hello
-- tail 1

shelf defmtl dump --table hi.elf
SEGGER RTT\x00\x00\x00\x00\x00\x00\x01\x00\x00\x00\x00\x00\x00\x00\x00\x00\x00\x000\x00\x00 \x10\x00\x00\x00\x02\x00\x00\x00\x0e\x00\x00\x00\x02\x00\x00\x00~\x00\x00\x00\x00\x00\x00\x00\x00\x00\x00\x00\x00\x00\x00\x01
=
status 7 shelf, 0 marks, nothing
2 calls
status 0 fine
INFO  hello

source defmtl dump --table hi.elf
SEGGER RTT\x00\x00\x00\x00\x00\x00\x01\x00\x00\x00\x00\x00\x00\x00\x00\x00\x00\x000\x00\x00 \x10\x00\x00\x00\x02\x00\x00\x00\x0e\x00\x00\x00\x02\x00\x00\x00~\x00\x00\x00\x00\x00\x00\x00\x00\x00\x00\x00\x00\x00\x00\x01
=
status 3 source, 0 marks, nothing
2 calls
status 0 fine
INFO  hello

sink defmtl dump --table hi.elf
SEGGER RTT\x00\x00\x00\x00\x00\x00\x01\x00\x00\x00\x00\x00\x00\x00\x00\x00\x00\x000\x00\x00 \x10\x00\x00\x00\x02\x00\x00\x00\x0e\x00\x00\x00\x02\x00\x00\x00~\x00\x00\x00\x00\x00\x00\x00\x00\x00\x00\x00\x00\x00\x00\x01
=
status 4 sink, 0 marks, nothing
1 calls
status 0 fine
INFO  hello

room defmtl dump --table hi.elf
SEGGER RTT\x00\x00\x00\x00\x00\x00\x01\x00\x00\x00\x00\x00\x00\x00\x00\x00\x00\x000\x00\x00 \x10\x00\x00\x00\x02\x00\x00\x00\x0e\x00\x00\x00\x02\x00\x00\x00~\x00\x00\x00\x00\x00\x00\x00\x00\x00\x00\x00\x00\x00\x00\x01
=
status 4 sink, 0 marks, nothing
status 4 sink, 0 marks, a front
12 calls
status 0 fine
INFO  hello";

// Puts what a session tells in which this call of this name fails.
fn put_turn<R: Threads + Wait + Sync>(
    rt: &R,
    alloc: Global,
    who: &str,
    call: u8,
    rest: &str,
    stage: &mut Stage,
    out: &mut String,
) -> Result<(), Fail> {
    let (line, given) = parted(rest, '\n');
    set_failing(alloc, given.as_bytes(), "\n".as_bytes(), who, call, stage)?;
    add_files(rt, alloc, &mut stage.shelf)?;
    put_session(rt, alloc, &Kind::Turns, line, stage, &OpenGate, out)
}

// Puts what the session with this failing call tells, unless it is what the one without a fault tells, and answers whether it is that.
fn put_call<R: Threads + Wait + Sync>(
    rt: &R,
    alloc: Global,
    row: &str,
    call: u8,
    whole: &str,
    stage: &mut Stage,
    out: &mut String,
) -> Result<bool, Fail> {
    let (who, rest) = parted(row, ' ');
    let mut told = String::new(alloc);
    put_turn(rt, alloc, who, call, rest, stage, &mut told)?;
    if is_same(told.as_str(), whole) {
        return Ok(true);
    }
    put_share(alloc, told.as_str(), whole, out)?;
    Ok(false)
}

// Puts what the sessions with a fault tell, each text once, how many there are, and what the one without tells.
fn put_calls<R: Threads + Wait + Sync>(
    rt: &R,
    alloc: Global,
    row: &str,
    whole: &str,
    stage: &mut Stage,
    out: &mut String,
) -> Result<(), Fail> {
    for call in 0..=u8::MAX {
        if put_call(rt, alloc, row, call, whole, stage, out)? {
            put_number(out, u64::from(call));
            put(out, " calls\n");
            put_whole(whole, out);
            return Ok(());
        }
    }
    Err(Fail::new("each call fails"))
}

// Puts what is told where calls fail in turn: who fails, the words and what the source gives.
pub(crate) fn put_turns<R: Threads + Wait + Sync>(
    rt: &R,
    alloc: Global,
    row: &str,
    stage: &mut Stage,
    out: &mut String,
) -> Result<(), Fail> {
    let (_, rest) = parted(row, ' ');
    let mut whole = String::new(alloc);
    put_turn(rt, alloc, "nobody", 0, rest, stage, &mut whole)?;
    put_calls(rt, alloc, row, whole.as_str(), stage, out)
}

#[test]
fn each_call_of_the_outside_that_fails_is_told(rt: HostRuntime) -> Result<(), Fail> {
    each_block(&rt, rt.alloc(), TURNS, 18, &Kind::Turns)
}
