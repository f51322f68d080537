//! The rows of the tests, by what is asked of their inputs.
use crate::booths::put_said;
use crate::terminals::{put_long, put_named, put_sayable, put_screens, put_spoken};
use std::alloc::Global;
use std::sync::Wait;
use std::test::Fail;

// What is asked of an input, each as its module says.
#[derive(Drop)]
pub(crate) enum Kind {
    Named,
    Sayable,
    Long,
    Spoken,
    Screens,
    Said,
}

fn put_answer<W: Wait>(
    rt: &W,
    alloc: Global,
    kind: &Kind,
    input: &str,
    out: &mut String,
) -> Result<(), Fail> {
    match kind {
        Kind::Named => put_named(input, out),
        Kind::Sayable => put_sayable(alloc, input, out),
        Kind::Long => put_long(alloc, input, out),
        Kind::Spoken => put_spoken(alloc, input, out),
        Kind::Screens => put_screens(alloc, input, out),
        Kind::Said => put_said(rt, alloc, input, out),
    }
}

fn each_row<W: Wait>(
    rt: &W,
    alloc: Global,
    rows: &str,
    between: &str,
    mark: &str,
    count: usize,
    kind: &Kind,
) -> Result<(), Fail> {
    test_rows::each_row(alloc, rows, between, mark, count, |alloc, input, out| {
        put_answer(rt, alloc, kind, input, out)
    })
}

// Asks for the answers of lines, as `test_rows::each_line` does.
pub(crate) fn each_line<W: Wait>(
    rt: &W,
    alloc: Global,
    lines: &str,
    count: usize,
    kind: &Kind,
) -> Result<(), Fail> {
    each_row(rt, alloc, lines, "\n", " = ", count, kind)
}

// Asks for the answers of blocks, as `test_rows::each_block` does.
pub(crate) fn each_block<W: Wait>(
    rt: &W,
    alloc: Global,
    blocks: &str,
    count: usize,
    kind: &Kind,
) -> Result<(), Fail> {
    each_row(rt, alloc, blocks, "\n\n", "\n=\n", count, kind)
}
