//! The commands that print, record, write a table and generate. A row is the words and the script, and what is told of the session.
use crate::rows::{Kind, each_block};
use crate::sessions::put_status;
use defmt_run::Outcome;
use std::alloc::Global;
use std::test::Fail;
use test_rows::{put, put_hex, put_number};

// The status, and the lines or the counts.
const LINES: &str = "\
defmtl print
stamp 1000 250
s a defmt_info a {=u8}
s b defmt_warn b {=bool}
w 1 b true
w 0 a 1
w 0 a 2
=
status 0 fine
0.001000 INFO  a 1
0.001250 INFO  a 2
0.001500 WARN  b true

defmtl gen 10
=
status 0 fine
lines 10
trace 2
debug 2
info 2
warn 2
error 2
writer 0 3
writer 1 3
writer 2 2
writer 3 2
bytes 164

defmtl gen 4096
=
status 0 fine
lines 4096
trace 819
debug 819
info 820
warn 819
error 819
writer 0 1024
writer 1 1024
writer 2 1024
writer 3 1024
bytes 67169

defmtl gen 0
=
status 2 words";

// The lines that rules show, of a run and of one in groups. A println line and the reports don't depend on rules.
const SHOWN: &str = "\
defmtl run --only warn --group
ring 64
s a defmt_info a {=u8}
s b defmt_warn b {=bool}
w 0 a 1
w 1 b true
w 0 a 2
w 1 b false
=
status 0 fine
WARN  b true
WARN  b false

defmtl run --group --only off,script=info
ring 64
s a defmt_info a {=u8}
s b defmt_warn b {=bool}
w 0 a 1
w 1 b true
w 0 a 2
w 1 b false
=
status 0 fine
INFO  a 1
INFO  a 2
WARN  b true
WARN  b false

defmtl run --only warn
s a defmt_info a {=u8}
s b defmt_warn b {=bool}
s p defmt_println done
w 0 a 1
w 0 b true
w 0 p
=
status 0 fine
WARN  b true
done

defmtl run --only off
ring 16
mode skip
reader late
s hi defmt_info hello
w 0 hi
w 0 hi
w 0 hi
w 0 hi
=
status 0 fine
-- dropped writer 0 statement 3 need 4 room 3";

// The status and the digits of the bytes.
const RECORDINGS: &str = "\
defmtl record
s hi defmt_info hello
w 0 hi
=
status 0 fine
00 01 7e 00

defmtl record
s opt defmt_prim None|Some({=?})
s num defmt_prim {=u8}
s pt defmt_derived Pt {{ x: {=?}, y: {=?} }}
s log defmt_debug at {} {:x}
w 0 log pt(num(3) num(255)) opt:1(num(255))
=
status 0 fine
00 04 03 02 03 2a 02 ff 01 01 02 12 ff 7d 00

defmtl record
profile 2
s hi defmt_info hello
w 0 hi
w 0 hi
=
status 0 fine
00 01 7e 00 00 01 01 7a 00";

// Puts the status of an outcome, and below it the digits of what was written.
pub(crate) fn put_bytes(
    alloc: Global,
    outcome: &Outcome,
    written: &[u8],
    out: &mut String,
) -> Result<(), Fail> {
    put_status(alloc, outcome, out)?;
    put(out, "\n");
    put_hex(out, written);
    Ok(())
}

// The status, and how many bytes the table's file has.
const TABLES: &str = "\
defmtl table
s hi defmt_info hello
w 0 hi
=
status 0 fine, 472 bytes

defmtl table
profile 2
s hi defmt_info hello
w 0 hi
=
status 0 fine, 508 bytes";

// Puts the status of an outcome, and how many bytes were written.
pub(crate) fn put_length(
    alloc: Global,
    outcome: &Outcome,
    written: &[u8],
    out: &mut String,
) -> Result<(), Fail> {
    put_status(alloc, outcome, out)?;
    put(out, ", ");
    put_number(out, written.len() as u64);
    put(out, " bytes");
    Ok(())
}

#[test]
fn lines_that_are_shown_counts_recordings_and_tables_are_written(
    rt: HostRuntime,
) -> Result<(), Fail> {
    each_block(&rt, rt.alloc(), LINES, 4, &Kind::Lines)?;
    each_block(&rt, rt.alloc(), SHOWN, 4, &Kind::Lines)?;
    each_block(&rt, rt.alloc(), RECORDINGS, 3, &Kind::Digits)?;
    each_block(&rt, rt.alloc(), TABLES, 2, &Kind::Length)
}
