//! A device with many strings and statements, whose recording is decoded as its script is printed.
use crate::rows::{Kind, each_block};
use crate::sessions::{
    Stage, add_table, put_played, put_session, put_status, set_stage, written_of,
};
use defmt_run::{OpenGate, Outcome};
use std::alloc::Global;
use std::sync::Wait;
use std::test::Fail;
use std::thread::Threads;
use test_rows::{
    is_same, line_count, parted, put, put_lines_of, put_number, put_repeated, text_of,
};

// A script with 40 strings, of whose last lines each string has one or two. These begin with the writer and a number, which has a repetition's number
// in front of its last digit.
const DEVICES: &str = r#"ring 1024
stamp 1000 250
s num defmt_prim {=u8}
s opt defmt_prim None|Some({=?})
s pt defmt_derived Pt {{ x: {=?}, y: {=?} }}
s motor defmt_str motor
s spare defmt_write spare
s trace0 defmt_trace {=u8} {=u16} at {}
s trace1 defmt_trace {=u8} {=u16} moved {=[?]}
s trace2 defmt_trace {=u8} {=u16} says {=str:?}
s trace3 defmt_trace {=u8} {=u16} sent {=[u8]:02x}
s trace4 defmt_trace {=u8} {=u16} leg {} of {=istr}
s trace5 defmt_trace {=u8} {=u16} bits {=i32} {=bool}
s trace6 defmt_trace {=u8} {=u16} state {:x}
s debug0 defmt_debug {=u8} {=u16} at {}
s debug1 defmt_debug {=u8} {=u16} moved {=[?]}
s debug2 defmt_debug {=u8} {=u16} says {=str:?}
s debug3 defmt_debug {=u8} {=u16} sent {=[u8]:02x}
s debug4 defmt_debug {=u8} {=u16} leg {} of {=istr}
s debug5 defmt_debug {=u8} {=u16} bits {=i32} {=bool}
s debug6 defmt_debug {=u8} {=u16} state {:x}
s info0 defmt_info {=u8} {=u16} at {}
s info1 defmt_info {=u8} {=u16} moved {=[?]}
s info2 defmt_info {=u8} {=u16} says {=str:?}
s info3 defmt_info {=u8} {=u16} sent {=[u8]:02x}
s info4 defmt_info {=u8} {=u16} leg {} of {=istr}
s info5 defmt_info {=u8} {=u16} bits {=i32} {=bool}
s info6 defmt_info {=u8} {=u16} state {:x}
s warn0 defmt_warn {=u8} {=u16} at {}
s warn1 defmt_warn {=u8} {=u16} moved {=[?]}
s warn2 defmt_warn {=u8} {=u16} says {=str:?}
s warn3 defmt_warn {=u8} {=u16} sent {=[u8]:02x}
s warn4 defmt_warn {=u8} {=u16} leg {} of {=istr}
s warn5 defmt_warn {=u8} {=u16} bits {=i32} {=bool}
s warn6 defmt_warn {=u8} {=u16} state {:x}
s error0 defmt_error {=u8} {=u16} at {}
s error1 defmt_error {=u8} {=u16} moved {=[?]}
s error2 defmt_error {=u8} {=u16} says {=str:?}
s error3 defmt_error {=u8} {=u16} sent {=[u8]:02x}
s error4 defmt_error {=u8} {=u16} leg {} of {=istr}
s error5 defmt_error {=u8} {=u16} bits {=i32} {=bool}
s error6 defmt_error {=u8} {=u16} state {:x}
repeat 1 51
w 0 trace0 0 %0 pt(num(3) opt:1(num(255)))
w 1 debug0 1 %0 pt(num(3) opt:1(num(255)))
w 2 info0 2 %0 pt(num(3) opt:1(num(255)))
w 3 warn0 3 %0 pt(num(3) opt:1(num(255)))
w 0 error0 0 %1 pt(num(3) opt:1(num(255)))
w 1 trace1 1 %1 pt[(num(1) opt:0()) (num(2) opt:1(num(3)))]
w 2 debug1 2 %1 pt[(num(1) opt:0()) (num(2) opt:1(num(3)))]
w 3 info1 3 %1 pt[(num(1) opt:0()) (num(2) opt:1(num(3)))]
w 0 warn1 0 %2 pt[(num(1) opt:0()) (num(2) opt:1(num(3)))]
w 1 error1 1 %2 pt[(num(1) opt:0()) (num(2) opt:1(num(3)))]
w 2 trace2 2 %2 "a \"b\" \u{e9}"
w 3 debug2 3 %2 "a \"b\" \u{e9}"
w 0 info2 0 %3 "a \"b\" \u{e9}"
w 1 warn2 1 %3 "a \"b\" \u{e9}"
w 2 error2 2 %3 "a \"b\" \u{e9}"
w 3 trace3 3 %3 #00ff0a
w 0 debug3 0 %4 #00ff0a
w 1 info3 1 %4 #00ff0a
w 2 warn3 2 %4 #00ff0a
w 3 error3 3 %4 #00ff0a
w 0 trace4 0 %5 opt:1(pt(num(7) opt:0())) @motor
w 1 debug4 1 %5 opt:1(pt(num(7) opt:0())) @motor
w 2 info4 2 %5 opt:1(pt(num(7) opt:0())) @motor
w 3 warn4 3 %5 opt:1(pt(num(7) opt:0())) @motor
w 0 error4 0 %6 opt:1(pt(num(7) opt:0())) @motor
w 1 trace5 1 %6 -70000 true
w 2 debug5 2 %6 -70000 true
w 3 info5 3 %6 -70000 true
w 0 warn5 0 %7 -70000 true
w 1 error5 1 %7 -70000 true
w 2 trace6 2 %7 opt:1(opt:1(num(255)))
w 3 debug6 3 %7 opt:1(opt:1(num(255)))
w 0 info6 0 %8 opt:1(opt:1(num(255)))
w 1 warn6 1 %8 opt:1(opt:1(num(255)))
w 2 error6 2 %8 opt:1(opt:1(num(255)))
w 3 trace0 3 %8 pt(num(3) opt:1(num(255)))
w 0 debug0 0 %9 pt(num(3) opt:1(num(255)))
w 1 info0 1 %9 pt(num(3) opt:1(num(255)))
w 2 warn0 2 %9 pt(num(3) opt:1(num(255)))
w 3 error0 3 %9 pt(num(3) opt:1(num(255)))
=
status 0 fine, 2000 lines, the same"#;

// Puts the status of an outcome and the lines without their stamps, those of a writer behind those of the writer before it.
pub(crate) fn put_by_writer(
    alloc: Global,
    outcome: &Outcome,
    written: &[u8],
    out: &mut String,
) -> Result<(), Fail> {
    put_status(alloc, outcome, out)?;
    let lines = text_of(written);
    put_lines_of(lines, "0 ", out);
    put_lines_of(lines, "1 ", out);
    put_lines_of(lines, "2 ", out);
    put_lines_of(lines, "3 ", out);
    Ok(())
}

// Puts what is told of the decoding of a recording by the table of its script.
fn put_decoded<R: Threads + Wait + Sync>(
    rt: &R,
    alloc: Global,
    script: &str,
    recording: &[u8],
    stage: &mut Stage,
    out: &mut String,
) -> Result<(), Fail> {
    let line = "defmtl decode --table device.elf";
    set_stage(alloc, recording, "".as_bytes(), stage)?;
    add_table(rt, alloc, "device.elf", script, &mut stage.shelf)?;
    put_session(rt, alloc, &Kind::Device, line, stage, &OpenGate, out)
}

fn put_recorded<R: Threads + Wait + Sync>(
    rt: &R,
    alloc: Global,
    script: &str,
    stage: &mut Stage,
    out: &mut String,
) -> Result<(), Fail> {
    let recording = written_of(rt, alloc, "defmtl record", script)?;
    put_decoded(rt, alloc, script, recording.as_slice(), stage, out)
}

fn put_compared(due: &str, got: &str, out: &mut String) {
    let (status, lines) = parted(due, '\n');
    put(out, status);
    put(out, ", ");
    put_number(out, line_count(lines));
    put(
        out,
        if is_same(got, due) {
            " lines, the same"
        } else {
            " lines, others"
        },
    );
}

fn put_both<R: Threads + Wait + Sync>(
    rt: &R,
    alloc: Global,
    script: &str,
    stage: &mut Stage,
    out: &mut String,
) -> Result<(), Fail> {
    let mut due = String::new(alloc);
    let line = "defmtl print";
    put_played(rt, alloc, &Kind::Device, line, script, stage, &mut due)?;
    let mut got = String::new(alloc);
    put_recorded(rt, alloc, script, stage, &mut got)?;
    put_compared(due.as_str(), got.as_str(), out);
    Ok(())
}

// Puts what is told of a device, whose script the row is.
pub(crate) fn put_device<R: Threads + Wait + Sync>(
    rt: &R,
    alloc: Global,
    row: &str,
    stage: &mut Stage,
    out: &mut String,
) -> Result<(), Fail> {
    let mut script = String::new(alloc);
    put_repeated(row, &mut script)?;
    put_both(rt, alloc, script.as_str(), stage, out)
}

#[test]
fn a_device_is_decoded_as_it_is_printed(rt: HostRuntime) -> Result<(), Fail> {
    each_block(&rt, rt.alloc(), DEVICES, 1, &Kind::Device)
}
