//! Rows of words and a script.
use crate::rows::Kind;
use crate::sessions::{Stage, put_played};
use std::alloc::Global;
use std::sync::Wait;
use std::test::Fail;
use std::thread::Threads;
use test_rows::{parted, put_repeated};

// Puts what is told of the session of a row: its words and a script.
pub(crate) fn put_row<R: Threads + Wait + Sync>(
    rt: &R,
    alloc: Global,
    kind: &Kind,
    row: &str,
    stage: &mut Stage,
    out: &mut String,
) -> Result<(), Fail> {
    let (line, script) = parted(row, '\n');
    put_played(rt, alloc, kind, line, script, stage, out)
}

// Puts what is told of the session of a row, of whose script the last lines are repeated.
pub(crate) fn put_repeated_row<R: Threads + Wait + Sync>(
    rt: &R,
    alloc: Global,
    kind: &Kind,
    row: &str,
    stage: &mut Stage,
    out: &mut String,
) -> Result<(), Fail> {
    let (line, lines) = parted(row, '\n');
    let mut script = String::new(alloc);
    put_repeated(lines, &mut script)?;
    put_played(rt, alloc, kind, line, script.as_str(), stage, out)
}
