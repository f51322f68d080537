//! The rows of the tests, by what is asked of their inputs.
use crate::blocks::{put_cuts, put_long_side_by_side, put_side_by_side};
use crate::decode::{put_changed, put_decoded};
use crate::device::put_device;
use crate::dump::put_dumped;
use crate::gates::put_held;
use crate::limits::put_long;
use crate::outside::put_turns;
use crate::scripts::{put_repeated_row, put_row};
use crate::sessions::{Stage, empty_stage};
use crate::words::put_words;
use std::alloc::Global;
use std::sync::Wait;
use std::test::Fail;
use std::thread::Threads;

// What is asked of an input, each as its module says, and what is told of a session beside its status.
#[derive(Drop)]
pub(crate) enum Kind {
    /// The lines that a script's session writes.
    Lines,
    /// The digits of what it writes.
    Digits,
    /// How many bytes it writes.
    Length,
    /// The marks, the rings and the events.
    Account,
    /// Whether the lines and reports are those that the tape asks for.
    Live,
    /// How many lines of two writers stand in their order.
    Talkers,
    /// How many turns there are, and how many lines of orders and of errors.
    Ordered,
    /// The lines, writer by writer and without their stamps, of a printing and of a decoding.
    Device,
    /// How many bytes the reader got, the lines, and what a gate counted.
    Held,
    /// What comes of each call of the outside that fails.
    Turns,
    /// The lines of a decoding.
    Decoded,
    /// Those by many threads, where they are those without threads.
    SideBySide,
    /// How many there are of a long recording, in the same way.
    LongSideBySide,
    /// Those by some sides in blocks of any size, where they are those of one block.
    Cut,
    /// Those by a table with another byte.
    Changed,
    /// The lines of the bytes of an image.
    Dumped,
    /// What comes of an input beyond its limit.
    Long,
    /// The job that words ask for.
    Job,
}

fn put_answer_on<R: Threads + Wait + Sync>(
    rt: &R,
    alloc: Global,
    kind: &Kind,
    row: &str,
    stage: &mut Stage,
    out: &mut String,
) -> Result<(), Fail> {
    match kind {
        Kind::Live | Kind::Talkers | Kind::Ordered => {
            put_repeated_row(rt, alloc, kind, row, stage, out)
        }
        Kind::Device => put_device(rt, alloc, row, stage, out),
        Kind::Held => put_held(rt, alloc, row, stage, out),
        Kind::Turns => put_turns(rt, alloc, row, stage, out),
        Kind::Decoded => put_decoded(rt, alloc, row, stage, out),
        Kind::SideBySide => put_side_by_side(rt, alloc, row, stage, out),
        Kind::LongSideBySide => put_long_side_by_side(rt, alloc, row, stage, out),
        Kind::Cut => put_cuts(rt, alloc, row, stage, out),
        Kind::Changed => put_changed(rt, alloc, row, stage, out),
        Kind::Dumped => put_dumped(rt, alloc, row, stage, out),
        Kind::Long => put_long(rt, alloc, row, stage, out),
        Kind::Job => put_words(alloc, row, out),
        _ => put_row(rt, alloc, kind, row, stage, out),
    }
}

// The stage stands here alone, so few functions have to drop one.
fn put_answer<R: Threads + Wait + Sync>(
    rt: &R,
    alloc: Global,
    kind: &Kind,
    row: &str,
    out: &mut String,
) -> Result<(), Fail> {
    let mut stage = empty_stage(alloc);
    put_answer_on(rt, alloc, kind, row, &mut stage, out)
}

fn each_row<R: Threads + Wait + Sync>(
    rt: &R,
    alloc: Global,
    rows: &str,
    between: &str,
    mark: &str,
    count: usize,
    kind: &Kind,
) -> Result<(), Fail> {
    test_rows::each_row(alloc, rows, between, mark, count, |alloc, row, out| {
        put_answer(rt, alloc, kind, row, out)
    })
}

// Asks for the answers of lines, as `test_rows::each_line` does.
pub(crate) fn each_line<R: Threads + Wait + Sync>(
    rt: &R,
    alloc: Global,
    lines: &str,
    count: usize,
    kind: &Kind,
) -> Result<(), Fail> {
    each_row(rt, alloc, lines, "\n", " = ", count, kind)
}

// Asks for the answers of blocks, as `test_rows::each_block` does.
pub(crate) fn each_block<R: Threads + Wait + Sync>(
    rt: &R,
    alloc: Global,
    blocks: &str,
    count: usize,
    kind: &Kind,
) -> Result<(), Fail> {
    each_row(rt, alloc, blocks, "\n\n", "\n=\n", count, kind)
}
