//! What a run tells beside its lines. A row is the words and the script, and what is told of its tape, its ring and its events.
use crate::rows::{Kind, each_block};
use crate::sessions::{put_lines, put_status};
use defmt_run::{Event, Outcome, RingKind, Settled};
use std::alloc::Global;
use std::test::Fail;
use test_rows::{put, put_number};

const ACCOUNTS: &str = "\
defmtl run
=
status 0 fine
0 marks
word ring, 0 bytes sent

defmtl run
s hi defmt_info hello
w 0 hi
=
status 0 fine
1 marks, at least as many looks
word ring, 4 bytes sent
event 1 INFO  hello

defmtl run
profile 2
s hi defmt_info hello
w 0 hi
w 0 hi
=
status 0 fine
2 marks, at least as many looks
word ring, 9 bytes sent
event 1 at 0 INFO  hello
event 1 at 1 INFO  hello";

fn put_marks(outcome: &Outcome, out: &mut String) {
    let marks = outcome.tape.len();
    put(out, "\n");
    put_number(out, marks as u64);
    put(out, " marks");
    if marks > 0 && outcome.looks >= marks as u64 {
        put(out, ", at least as many looks");
    }
}

fn put_settled(settled: &Settled, done: &str, out: &mut String) {
    let kind = match settled.ring() {
        RingKind::Word => "word",
        RingKind::Queue => "queue",
        RingKind::Plain => "plain",
    };
    put(out, "\n");
    put(out, kind);
    put(out, " ring, ");
    put_number(out, settled.sent_len());
    put(out, " bytes ");
    put(out, done);
}

fn put_ring(outcome: &Outcome, out: &mut String) {
    match &outcome.settled {
        Some(settled) => put_settled(settled, "sent", out),
        None => put(out, "\nno ring"),
    }
}

fn put_place(place: Option<u16>, out: &mut String) {
    if let Some(place) = place {
        put(out, "at ");
        put_number(out, u64::from(place));
        put(out, " ");
    }
}

// What was said on terminals, nothing where there is no account of their ring.
fn put_terminals(outcome: &Outcome, out: &mut String) {
    if let Some(term) = &outcome.term {
        put_settled(term, "spoken", out);
        put(out, ", ");
        put_number(out, outcome.said.len() as u64);
        put(out, " words");
    }
}

// What was sent down, nothing where there is no account of its ring.
fn put_orders(outcome: &Outcome, out: &mut String) {
    if let Some(orders) = &outcome.orders {
        put_settled(orders, "ordered", out);
        put(out, ", ");
        put_number(out, outcome.turns.len() as u64);
        put(out, " turns");
    }
}

fn put_event(event: &Event, out: &mut String) {
    match event {
        Event::Line {
            index,
            place,
            text,
            ..
        } => {
            put(out, "\nevent ");
            put_number(out, u64::from(*index));
            put(out, " ");
            put_place(*place, out);
            put(out, text.as_str());
        }
        _ => put(out, "\nanother event"),
    }
}

// Puts the status of an outcome, its marks, its ring, what was said on terminals and sent down, and its events.
pub(crate) fn put_account(alloc: Global, outcome: &Outcome, out: &mut String) -> Result<(), Fail> {
    put_status(alloc, outcome, out)?;
    put_marks(outcome, out);
    put_ring(outcome, out);
    put_terminals(outcome, out);
    put_orders(outcome, out);
    for event in outcome.events.as_slice() {
        put_event(event, out);
    }
    Ok(())
}

// Puts how many bytes the reader of a run got, and behind it the status and the lines that were written.
pub(crate) fn put_got(
    alloc: Global,
    outcome: &Outcome,
    written: &[u8],
    out: &mut String,
) -> Result<(), Fail> {
    let got = match &outcome.settled {
        Some(settled) => settled.got_len(),
        None => 0,
    };
    put_number(out, got);
    put(out, " bytes got, ");
    put_lines(alloc, outcome, written, out)
}

#[test]
fn a_run_tells_its_tape_its_ring_and_its_events_and_an_empty_one_sends_nothing(
    rt: HostRuntime,
) -> Result<(), Fail> {
    each_block(&rt, rt.alloc(), ACCOUNTS, 3, &Kind::Account)
}
