//! Writers that a gate holds, and what it is asked and told. A row is how many writers meet, at which place the writer 0 waits and for how many bytes, the
//! words and the script. Told are how many bytes the reader got, the status and the lines, how many statements the gate was asked for by the writers 0 and 1,
//! how many bytes it was told of at last, and how many of its calls came out of turn or waited in vain.
use crate::rows::{Kind, each_block};
use crate::sessions::{Stage, put_session, set_stage};
use defmt_run::Gate;
use std::alloc::Global;
use std::sync::Wait;
use std::sync::atomic::{AtomicU64, Ordering};
use std::test::Fail;
use std::thread;
use std::thread::Threads;
use test_rows::{number_of, parted, put, put_number};

// In the row before the last the writer 1 goes on once the writer 0 was asked, and the writer 0 once both frames of the writer 1 were taken. So a writer that
// was asked behind its own frame would have it in front of the second of these. In the last the writer 1 goes on once the writer 0 was asked for the statement
// behind its text. So its own text, which stands behind its statement, is said second.
const HELD: &str = "\
2 0 0/defmtl run --group
ring 64
s a defmt_info a {=u8}
s b defmt_warn b {=bool}
w 0 a 1
w 1 b true
w 0 a 2
w 1 b false
=
19 bytes got, status 0 fine
INFO  a 1
INFO  a 2
WARN  b true
WARN  b false
2 and 2 asked, 19 bytes told, 0 out of turn

2 0 0/defmtl run --group
ring 64
mode skip
s a defmt_info a {=u8}
s b defmt_warn b {=bool}
w 0 a 1
w 1 b true
w 0 a 2
w 1 b false
=
19 bytes got, status 0 fine
INFO  a 1
INFO  a 2
WARN  b true
WARN  b false
2 and 2 asked, 19 bytes told, 0 out of turn

2 0 0/defmtl run --group
ring 64
mode trim
s a defmt_info a {=u8}
s b defmt_warn b {=bool}
w 0 a 1
w 1 b true
w 0 a 2
w 1 b false
=
19 bytes got, status 0 fine
INFO  a 1
INFO  a 2
WARN  b true
WARN  b false
2 and 2 asked, 19 bytes told, 0 out of turn

2 0 0/defmtl run --group
ring 64
mode skip
reader late
s a defmt_info a {=u8}
s b defmt_warn b {=bool}
w 0 a 1
w 1 b true
w 0 a 2
w 1 b false
=
0 bytes got, status 0 fine
INFO  a 1
INFO  a 2
WARN  b true
WARN  b false
2 and 2 asked, 0 bytes told, 0 out of turn

1 3 12/defmtl run --group
ring 16
s hi defmt_info hello
w 0 hi
w 0 hi
w 0 hi
w 0 hi
=
16 bytes got, status 0 fine
INFO  hello
INFO  hello
INFO  hello
INFO  hello
4 and 0 asked, 16 bytes told, 0 out of turn

1 3 12/defmtl run --group
ring 16
mode skip
s hi defmt_info hello
w 0 hi
w 0 hi
w 0 hi
w 0 hi
=
16 bytes got, status 0 fine
INFO  hello
INFO  hello
INFO  hello
INFO  hello
4 and 0 asked, 16 bytes told, 0 out of turn

1 3 12/defmtl run --group
ring 16
mode trim
s hi defmt_info hello
w 0 hi
w 0 hi
w 0 hi
w 0 hi
=
16 bytes got, status 0 fine
INFO  hello
INFO  hello
INFO  hello
INFO  hello
4 and 0 asked, 16 bytes told, 0 out of turn

2 0 0/defmtl steer
s hi defmt_info hello
w 0 hi
w 1 hi
=
8 bytes got, status 0 fine
INFO  hello
INFO  hello
1 and 1 asked, 8 bytes told, 0 out of turn

2 0 9/defmtl run
ring 64
s a defmt_info a {=u8}
s b defmt_warn b {=bool}
w 0 a 1
w 1 b true
w 1 b false
=
14 bytes got, status 0 fine
WARN  b true
WARN  b false
INFO  a 1
1 and 2 asked, 14 bytes told, 0 out of turn

2 0 0/defmtl term
s hi defmt_info hello
t 0 3 a
w 0 hi
w 1 hi
t 1 3 b
=
8 bytes got, status 0 fine
INFO  hello
INFO  hello
== terminal 3
a
b
1 and 1 asked, 8 bytes told, 0 out of turn";

// How many turns a gate holds a writer at most.
const TURNS: u64 = 10_000_000;

// Waits until the number is at least this, and tells whether it was within so many turns.
fn reaches(number: &AtomicU64, least: u64) -> bool {
    for _ in 0..TURNS {
        if number.load(Ordering::SeqCst) >= least {
            return true;
        }
        thread::yield_now();
    }
    false
}

// Holds each writer at place 0 until so many were asked there, and the writer 0 at one place until so many bytes were taken. It counts the statements that
// it was asked for by the writers 0 and 1, and the calls that came out of turn or waited in vain.
#[derive(Drop)]
struct Holding {
    writers: u64,
    place: u64,
    bytes: u64,
    met: AtomicU64,
    first: AtomicU64,
    second: AtomicU64,
    taken: AtomicU64,
    stray: AtomicU64,
}

impl Holding {
    // Counts a call that came out of turn or waited in vain.
    fn note(&self, in_turn: bool) {
        if !in_turn {
            self.stray.fetch_add(1, Ordering::SeqCst);
        }
    }

    // Counts a statement. In turn is the place behind those that its writer was asked for.
    fn count(&self, writer: u8, place: u64) {
        let due = match writer {
            0 => self.first.fetch_add(1, Ordering::SeqCst),
            1 => self.second.fetch_add(1, Ordering::SeqCst),
            _ => u64::MAX,
        };
        self.note(due == place);
    }
}

impl Gate for Holding {
    ghost passed = { λ _ _ _. Unit {0} };

    ghost told = { λ _ _. Unit {0} };

    fn pass(&self, writer: u8, place: u32) {
        let place = u64::from(place);
        self.count(writer, place);
        if place == 0 {
            self.met.fetch_add(1, Ordering::SeqCst);
            self.note(reaches(&self.met, self.writers));
        }
        if writer == 0 && place == self.place {
            self.note(reaches(&self.taken, self.bytes));
        }
    }

    // In turn is a greater total than the one before.
    fn took(&self, total: u64) {
        let before = self.taken.swap(total, Ordering::SeqCst);
        self.note(before < total);
    }
}

fn gate_for(writers: u64, place: u64, bytes: u64) -> Holding {
    Holding {
        writers,
        place,
        bytes,
        met: AtomicU64::new(0),
        first: AtomicU64::new(0),
        second: AtomicU64::new(0),
        taken: AtomicU64::new(0),
        stray: AtomicU64::new(0),
    }
}

fn gate_of(numbers: &str) -> Result<Holding, Fail> {
    let (writers, rest) = parted(numbers, ' ');
    let (place, bytes) = parted(rest, ' ');
    Ok(gate_for(number_of(writers)?, number_of(place)?, number_of(bytes)?))
}

fn put_behind<R: Threads + Wait + Sync>(
    rt: &R,
    alloc: Global,
    line: &str,
    script: &str,
    gate: &Holding,
    stage: &mut Stage,
    out: &mut String,
) -> Result<(), Fail> {
    set_stage(alloc, script.as_bytes(), "".as_bytes(), stage)?;
    put_session(rt, alloc, &Kind::Held, line, stage, gate, out)
}

// Puts what the gate counted.
fn put_counted(gate: &Holding, out: &mut String) {
    let first = gate.first.load(Ordering::SeqCst);
    let second = gate.second.load(Ordering::SeqCst);
    let taken = gate.taken.load(Ordering::SeqCst);
    let stray = gate.stray.load(Ordering::SeqCst);
    put(out, "\n");
    put_number(out, first);
    put(out, " and ");
    put_number(out, second);
    put(out, " asked, ");
    put_number(out, taken);
    put(out, " bytes told, ");
    put_number(out, stray);
    put(out, " out of turn");
}

// Puts what is told behind a gate, and of it: the gate's numbers, the words and the script.
pub(crate) fn put_held<R: Threads + Wait + Sync>(
    rt: &R,
    alloc: Global,
    row: &str,
    stage: &mut Stage,
    out: &mut String,
) -> Result<(), Fail> {
    let (head, script) = parted(row, '\n');
    let (numbers, line) = parted(head, '/');
    let gate = gate_of(numbers)?;
    put_behind(rt, alloc, line, script, &gate, stage, out)?;
    put_counted(&gate, out);
    Ok(())
}

#[test]
fn writers_wait_for_each_other_and_for_the_reader(rt: HostRuntime) -> Result<(), Fail> {
    each_block(&rt, rt.alloc(), HELD, 10, &Kind::Held)
}
