//! Statements that are dropped beside a live reader. A row is the words and the script.
use crate::rows::{Kind, each_block};
use crate::sessions::put_lines;
use defmt_run::{Fate, Mark, Outcome, Tape};
use std::alloc::Global;
use std::test::Fail;
use test_rows::{is_same, put, put_number};

const LIVE: &str = "\
defmtl run
ring 16
mode skip
reader live
s hi defmt_info hello
repeat 0 200
w 0 hi
=
200 marks, lines and reports as the tape says";

// The lines of the frames that were sent.
fn put_sent(tape: &Tape, out: &mut String) {
    for mark in tape.as_slice() {
        if matches!(mark.fate, Fate::Whole) {
            put(out, "\nINFO  hello");
        }
    }
}

// The report of a frame that wasn't sent.
fn put_report(mark: &Mark, out: &mut String) {
    let place = mark.place;
    match mark.fate {
        Fate::Whole => {}
        Fate::Dropped {
            need: 4,
            room: room @ 0..=3,
        } => {
            put(out, "\n-- dropped writer 0 statement ");
            put_number(out, u64::from(place));
            put(out, " need 4 room ");
            put_number(out, u64::from(room));
        }
        _ => put(out, "\nanother fate"),
    }
}

// What is due where this is the tape.
fn put_due(tape: &Tape, out: &mut String) {
    put(out, "status 0 fine");
    put_sent(tape, out);
    for mark in tape.as_slice() {
        put_report(mark, out);
    }
}

fn put_compared(told: &str, due: &str, marks: usize, out: &mut String) {
    if is_same(told, due) {
        put_number(out, marks as u64);
        put(out, " marks, lines and reports as the tape says");
    } else {
        put(out, told);
    }
}

// Puts whether the lines and reports are those that the tape asks for, and else the lines.
pub(crate) fn put_verdict(
    alloc: Global,
    outcome: &Outcome,
    written: &[u8],
    out: &mut String,
) -> Result<(), Fail> {
    let mut told = String::new(alloc);
    put_lines(alloc, outcome, written, &mut told)?;
    let mut due = String::new(alloc);
    put_due(&outcome.tape, &mut due);
    put_compared(told.as_str(), due.as_str(), outcome.tape.len(), out);
    Ok(())
}

#[test]
fn a_line_or_a_report_is_printed_for_each_statement(rt: HostRuntime) -> Result<(), Fail> {
    each_block(&rt, rt.alloc(), LIVE, 1, &Kind::Live)
}
