//! Scripts that are run by threads, under gates that hold some of them.
ghost use Rattle.std.specs.Prelude.{◌≡◌, IfOk};
ghost use Rattle.defmt_writers.specs.Runs.{ModeFits};

use crate::gates::Hold;
use crate::rows::{Kind, each_block};
use crate::scripts::{put_digits_or_nothing, put_marks, script_of, stamp_of};
use defmt_script::{RingMode, Script};
use defmt_writers::{Gate, OpenGate, Run, run_script};
use rtt_ring::{Channel, QueueRing, WordRing};
use std::alloc::Global;
use std::fmt::Write;
use std::sync::Wait;
use std::sync::atomic::{AtomicU64, Ordering};
use std::test::Fail;
use std::thread::Threads;
use test_rows::put_str;

// A script of the writers 0 and 1 with a statement each: what came of it where they wait for each other.
const MEETINGS: &str = "\
s hi defmt_info hello
w 0 hi
w 1 hi
=
2 met
2 marks, 8 bytes sent, Word
captured 00 01 7e 00 00 01 7e 00
rest nothing

mode skip
s hi defmt_info hello
w 0 hi
w 1 hi
=
2 met
2 marks, 8 bytes sent, Word
captured 00 01 7e 00 00 01 7e 00
rest nothing

mode trim
s hi defmt_info hello
w 0 hi
w 1 hi
=
2 met
2 marks, 8 bytes sent, Word
captured 00 01 7e 00 00 01 7e 00
rest nothing

mode skip
reader late
s hi defmt_info hello
w 0 hi
w 1 hi
=
2 met
2 marks, 8 bytes sent, Word
captured nothing
rest 00 01 7e 00 00 01 7e 00";

// The same of scripts over a queue ring, under an open gate.
const QUEUED: &str = "\
ring 16
s hi defmt_info hello
w 0 hi
w 1 hi
w 0 hi
w 1 hi
w 0 hi
w 1 hi
=
6 marks, 24 bytes sent, Queue
captured 00 01 7e 00 00 01 7e 00 00 01 7e 00 00 01 7e 00 00 01 7e 00 00 01 7e 00
rest nothing";

// The same where the writer 0 is held at place 3 until twelve bytes were taken.
const IN_TIME: &str = "\
ring 16
mode skip
reader live
s hi defmt_info hello
w 0 hi
w 0 hi
w 0 hi
w 0 hi
=
1 reached, 4 looks
0.0 at 0 Whole
0.1 at 0 Whole
0.2 at 0 Whole
0.3 at 0 Whole
4 marks, 16 bytes sent, Word
captured 00 01 7e 00 00 01 7e 00 00 01 7e 00 00 01 7e 00
rest nothing";

// The same of scripts with a late reader, under an open gate.
const LATE: &str = "\
ring 16
mode skip
reader late
s hi defmt_info hello
w 0 hi
w 0 hi
w 0 hi
w 0 hi
w 0 hi
=
0.0 at 0 Whole
0.1 at 0 Whole
0.2 at 0 Whole
0.3 at 0 Dropped { need: 4, room: 3 }
0.4 at 0 Dropped { need: 4, room: 3 }
5 marks, 12 bytes sent, Word
captured nothing
rest 00 01 7e 00 00 01 7e 00 00 01 7e 00

ring 16
mode trim
reader late
s hi defmt_info hello
w 0 hi
w 0 hi
w 0 hi
w 0 hi
w 0 hi
=
0.0 at 0 Whole
0.1 at 0 Whole
0.2 at 0 Whole
0.3 at 0 Cut { need: 4, room: 3 }
0.4 at 0 Cut { need: 4, room: 0 }
5 marks, 15 bytes sent, Word
captured nothing
rest 00 01 7e 00 00 01 7e 00 00 01 7e 00 00 01 7e";

// The same of a script without lines.
const EMPTY: &str = "
=
0 marks, 0 bytes sent, Word
captured nothing
rest nothing";

// What is told of a run in front of its account, and the count of the writers that passed a gate.
#[derive(Drop)]
enum Told<'g> {
    Nothing,
    Marks,
    Met(&'g AtomicU64),
    Reached(&'g AtomicU64),
}

// Puts how many marks a run has, what it sent over which ring, and what was captured of that.
pub(crate) fn put_account(run: &Run, out: &mut String) -> Result<(), Fail> {
    let (count, sent, ring) = (run.tape.len(), run.settled.sent_len(), run.settled.ring());
    write!(out, "{count} marks, {sent} bytes sent, {ring:?}\ncaptured ")?;
    put_digits_or_nothing(out, run.captured.as_slice())?;
    put_str(out, "\nrest ")?;
    put_digits_or_nothing(out, run.rest.as_slice())
}

fn put_reached(count: u64, run: &Run, out: &mut String) -> Result<(), Fail> {
    let looks = run.looks;
    write!(out, "{count} reached, {looks} looks\n")?;
    put_marks(out, &run.tape)
}

// Puts what came of a run, but for the order of its marks where they aren't told.
fn put_told(told: &Told<'_>, run: &Run, out: &mut String) -> Result<(), Fail> {
    match told {
        Told::Nothing => {}
        Told::Marks => put_marks(out, &run.tape)?,
        Told::Met(count) => write!(out, "{} met\n", count.load(Ordering::SeqCst))?,
        Told::Reached(count) => put_reached(count.load(Ordering::SeqCst), run, out)?,
    }
    put_account(run, out)
}

// Runs a script.
fn put_run<H: Channel, G: Gate + Sync, R: Threads + Wait + Sync>(
    rt: &R,
    alloc: Global,
    script: Script,
    gate: &G,
    told: &Told<'_>,
    out: &mut String,
) -> Result<(), Fail>
    requires { ModeFits script.settings.mode H.tells }
{
    let stamp = stamp_of(&script);
    let run = run_script::<H, _, G, R>(rt, alloc, script, stamp, gate)?;
    put_told(told, &run, out)
}

// A script in blocking mode.
pub(crate) fn blocking_script_of(alloc: Global, text: &str) -> Result<Script, Fail>
    ensures { IfOk result (λ script. script.settings.mode ≡ RingMode.Block) }
{
    let script = script_of(alloc, text)?;
    match script.mode() {
        RingMode::Block => Ok(script),
        _ => Err(Fail::new("another mode")),
    }
}

pub(crate) fn put_meeting<R: Threads + Wait + Sync>(
    rt: &R,
    alloc: Global,
    text: &str,
    out: &mut String,
) -> Result<(), Fail> {
    let script = script_of(alloc, text)?;
    let gate = Hold::new(2, 0, 2, 0);
    let told = Told::Met(&gate.passed);
    put_run::<WordRing, _, R>(rt, alloc, script, &gate, &told, out)
}

pub(crate) fn put_queued<R: Threads + Wait + Sync>(
    rt: &R,
    alloc: Global,
    text: &str,
    out: &mut String,
) -> Result<(), Fail> {
    let script = blocking_script_of(alloc, text)?;
    put_run::<QueueRing, _, R>(rt, alloc, script, &OpenGate, &Told::Nothing, out)
}

pub(crate) fn put_in_time<R: Threads + Wait + Sync>(
    rt: &R,
    alloc: Global,
    text: &str,
    out: &mut String,
) -> Result<(), Fail> {
    let script = script_of(alloc, text)?;
    let gate = Hold::new(1, 3, 1, 12);
    let told = Told::Reached(&gate.passed);
    put_run::<WordRing, _, R>(rt, alloc, script, &gate, &told, out)
}

pub(crate) fn put_open<R: Threads + Wait + Sync>(
    rt: &R,
    alloc: Global,
    text: &str,
    out: &mut String,
) -> Result<(), Fail> {
    let script = script_of(alloc, text)?;
    put_run::<WordRing, _, R>(rt, alloc, script, &OpenGate, &Told::Marks, out)
}

#[test]
fn two_writers_wait_for_each_other_and_for_room(rt: HostRuntime) -> Result<(), Fail> {
    each_block(&rt, rt.alloc(), MEETINGS, 4, &Kind::Meeting)?;
    each_block(&rt, rt.alloc(), QUEUED, 1, &Kind::Queued)
}

#[test]
fn frames_are_dropped_or_cut_beside_a_late_reader_alone(rt: HostRuntime) -> Result<(), Fail> {
    each_block(&rt, rt.alloc(), IN_TIME, 1, &Kind::InTime)?;
    each_block(&rt, rt.alloc(), LATE, 2, &Kind::Open)
}

#[test]
fn no_lines_send_nothing(rt: HostRuntime) -> Result<(), Fail> {
    each_block(&rt, rt.alloc(), EMPTY, 1, &Kind::Open)
}
