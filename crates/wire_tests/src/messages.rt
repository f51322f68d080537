//! Messages and frames of the statements of scripts, and whether they are read again.
use crate::reading::{put_cause, put_spelled};
use crate::rows::Kind;
use crate::runs::put_words;
use crate::strings::{end_line, script_of};
use defmt_encode::{Heard, MESSAGE_LIMIT, frame, is_long, message, place_suits, read_message};
use defmt_intern::{Profile, Table};
use defmt_script::Script;
use defmt_spelling::read_args;
use defmt_values::Statement;
use std::alloc::Global;
use std::fmt::Write;
use std::test::Fail;
use test_rows::{each_block, each_line};

// How many bytes the frame of a message has at most.
const FRAME_SIZE: usize = 2288;

// A script with a statement; its message, its frame, and the index, the arguments and the stamp that are read from the message where they give it again.
const SENT: &str = r#"s hello defmt_info hello
w 0 hello
=
01 00
00 01 7e 00
1

s v defmt_info {=u8:#04x} {0=u8:b}
w 0 v 10
=
01 00 0a
00 01 0a 7a 00
1 10

s bits defmt_info {0=0..4} {0=8..12:#b}
w 0 bits 0x0a05
=
01 00 05 0a
00 01 05 0a 72 00
1 2565

s say defmt_info {=str}
w 0 say "abcdefghijklmnopqrstuvwxyzabcdefgh"
=
01 00 22 00 00 00 61 62 63 64 65 66 67 68 69 6a 6b 6c 6d 6e 6f 70 71 72 73 74 75 76 77 78 79 7a 61 62 63 64 65 66 67 68
00 01 22 61 3a 62 63 64 65 66 67 68 69 6a 6b 6c 6d 6e 6f 70 71 72 73 74 75 76 77 78 79 7a 61 62 63 64 65 66 67 68 9a 00
1 "abcdefghijklmnopqrstuvwxyzabcdefgh"

s opt defmt_prim None|Some({=?})
s num defmt_prim {=u8}
s pt defmt_derived Pt {{ x: {=?}, y: {=?} }}
s log defmt_debug at {} {:x}
w 0 log pt(num(3) num(255)) opt:1(num(255))
=
04 00 03 00 02 00 03 02 00 ff 01 00 01 02 00 ff
00 04 03 02 03 2a 02 ff 01 01 02 12 ff 7d 00
4 pt(num(3) num(255)) opt:1(num(255))

s each defmt_info {=i16} {=char} {=istr} {=[u8]} {=[u8; 2]} {=bool}
s word defmt_str word
w 0 each -2 'ß' @word #07 #0809 true
=
01 00 fe ff df 00 00 00 02 00 01 00 00 00 07 08 09 01
00 01 fe ff df 62 02 01 75 07 08 09 01 70 00
1 -2 'ß' @word #07 #0809 true

stamp 1000 250
s hello defmt_info hello
w 0 hello
=
01 00 e8 03 00 00 00 00 00 00
00 01 e8 03 72 7f 00
1 at 1000"#;

// How many letters a text has whose statement is written, in the second profile where it is said first; whether its message is
// long, and the buffer's first byte, which was 9.
const LONG: &str = "\
1995 = long true first 9
1994 = size 2000 long false first 1
two 1993 = long true first 9
two 1992 = size 2000 long false first 1";

// The frame of a message.
fn put_frame(message: &[u8], out: &mut String) -> Result<(), Fail> {
    if message.len() > MESSAGE_LIMIT {
        return Err(Fail::new("long"));
    }
    let mut framed = [9u8; FRAME_SIZE];
    let count = frame(message, &mut framed);
    if count > FRAME_SIZE {
        return Err(Fail::new("beyond the buffer"));
    }
    put_words(out, &framed[..count])
}

/// The stamp of a script's first statement.
pub fn first_stamp(script: &Script) -> Option<u64> {
    match script.stamp() {
        Some((base, _)) => Some(base),
        None => None,
    }
}

// What was heard, where its message is the same.
fn put_same(
    alloc: Global,
    script: &Script,
    heard: &Heard,
    bytes: &[u8],
    out: &mut String,
) -> Result<(), Fail> {
    if !place_suits(script.table(), None) {
        return Err(Fail::new("no place"));
    }
    let mut buffer = [0u8; MESSAGE_LIMIT];
    let count = match message(
        script.table(),
        None,
        first_stamp(script),
        &heard.stm,
        &mut buffer,
    ) {
        Ok(count) if count <= MESSAGE_LIMIT => count,
        _ => return Err(Fail::new("long")),
    };
    let back = &buffer[..count];
    if back != bytes {
        return put_words(out, back);
    }
    put_spelled(alloc, script.names(), script.table(), heard, out)
}

// What the message reads as.
fn put_again(alloc: Global, script: &Script, bytes: &[u8], out: &mut String) -> Result<(), Fail> {
    match read_message(alloc, script.table(), bytes) {
        Ok(heard) => put_same(alloc, script, &heard, bytes, out),
        Err(cause) => put_cause(out, cause),
    }
}

fn put_carried(
    alloc: Global,
    script: &Script,
    message: &[u8],
    out: &mut String,
) -> Result<(), Fail> {
    put_words(out, message)?;
    end_line(out)?;
    put_frame(message, out)?;
    end_line(out)?;
    put_again(alloc, script, message, out)
}

fn put_statement(
    alloc: Global,
    script: &Script,
    stm: &Statement,
    out: &mut String,
) -> Result<(), Fail> {
    if !place_suits(script.table(), None) {
        return Err(Fail::new("no place"));
    }
    let mut bytes = [0u8; MESSAGE_LIMIT];
    match message(script.table(), None, first_stamp(script), stm, &mut bytes) {
        Ok(count) if count <= MESSAGE_LIMIT => put_carried(alloc, script, &bytes[..count], out),
        _ => Err(Fail::new("long")),
    }
}

fn put_first(alloc: Global, script: &Script, out: &mut String) -> Result<(), Fail> {
    match script.statement(0, 0) {
        Some(stm) => put_statement(alloc, script, stm, out),
        None => Err(Fail::new("no statement")),
    }
}

pub fn put_sent(alloc: Global, text: &str, out: &mut String) -> Result<(), Fail> {
    let script = script_of(alloc, text)?;
    put_first(alloc, &script, out)
}

fn put_letters(out: &mut String, count: u16) -> Result<(), Fail> {
    out.push('"')?;
    for _ in 0..count {
        out.push('a')?;
    }
    Ok(out.push('"')?)
}

fn letters_of(alloc: Global, count: &str) -> Result<String, Fail> {
    let count = count.parse::<u16>()?;
    let mut text = String::new(alloc);
    put_letters(&mut text, count)?;
    Ok(text)
}

// A statement with a text of so many letters.
fn statement_of(alloc: Global, script: &Script, count: &str) -> Result<Statement, Fail> {
    let text = letters_of(alloc, count)?;
    let args = read_args(alloc, script.names(), script.table(), 1, text.as_str())?;
    Ok(Statement { index: 1, args })
}

fn put_written(
    table: &Table,
    place: Option<u16>,
    stm: &Statement,
    out: &mut String,
) -> Result<(), Fail> {
    if !place_suits(table, place) {
        return Err(Fail::new("the place doesn't suit"));
    }
    let mut bytes = [9u8; MESSAGE_LIMIT];
    if let Ok(count) = message(table, place, None, stm, &mut bytes) {
        write!(out, "size {count} ")?;
    }
    let first = bytes[0];
    let long = is_long(table, place, None, stm);
    Ok(write!(out, "long {long} first {first}")?)
}

fn put_written_by(
    alloc: Global,
    script: &Script,
    count: &str,
    out: &mut String,
) -> Result<(), Fail> {
    let mut table = script.table().copy()?;
    match count.strip_prefix("two ") {
        Some(count) => {
            table.set_profile(Profile::Two);
            put_written(&table, Some(7), &statement_of(alloc, script, count)?, out)
        }
        None => put_written(&table, None, &statement_of(alloc, script, count)?, out),
    }
}

pub fn put_written_of_letters(alloc: Global, count: &str, out: &mut String) -> Result<(), Fail> {
    let (strings, count) = match count.strip_prefix("debug ") {
        Some(count) => ("language full\ns say defmt_info {=__internal_Debug}", count),
        None => ("s say defmt_info {=str}", count),
    };
    let script = script_of(alloc, strings)?;
    put_written_by(alloc, &script, count, out)
}

#[test]
fn statements_have_messages_and_frames_and_are_read_again(rt: HostRuntime) -> Result<(), Fail> {
    each_block(rt.alloc(), SENT, 7, &Kind::Sent)?;
    each_line(rt.alloc(), LONG, 4, &Kind::WrittenOfLetters)
}
