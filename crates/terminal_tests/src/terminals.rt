//! Text terminals: which texts may be spoken, the lines that are written for them, and what a stream shows on each.
ghost use Rattle.std.specs.Prelude.{◌<◌, ◌≤◌, IfOk, length};

use crate::rows::{Kind, each_line};
use rtt_terminal::{Screens, TermFault, is_sayable, read_terminals, speak, terminal_named};
use std::alloc::Global;
use std::fmt::Write;
use std::test::Fail;
use test_rows::{bytes_of, put_digits, put_str};

// A text, and the terminal that it names.
const NAMED: &str = "\
0 = 0
9 = 9
A = 10
F = 15
G = none
a = none
/ = none
: = none
@ = none
00 = none";

pub(crate) fn put_named(text: &str, out: &mut String) -> Result<(), Fail> {
    match terminal_named(text) {
        Some(terminal) => Ok(write!(out, "{terminal}")?),
        None => put_str(out, "none"),
    }
}

// The bytes of a text, and whether it may be spoken.
const SAYABLE: &str = "\
20 7e c3 a9 = yes
c2 80 = yes
78 1f 78 = no
0a = no
78 7f = no";

fn put_test(text: &str, out: &mut String) -> Result<(), Fail> {
    if is_sayable(text) {
        return put_str(out, "yes");
    }
    put_str(out, "no")
}

pub(crate) fn put_sayable(alloc: Global, digits: &str, out: &mut String) -> Result<(), Fail> {
    let bytes = bytes_of(alloc, digits)?;
    put_test(str::from_utf8(&bytes)?, out)
}

// Puts what is written of a text that may be spoken, behind what left a terminal current, and answers how many bytes.
fn line_size(current: u8, terminal: u8, text: &str, line: &mut [u8]) -> Result<usize, Fail>
    ensures { IfOk result (λ size. size ≤ length line.new) }
{
    if current > 15 || terminal > 15 || !is_sayable(text) || line.len() < 2003 {
        return Err(Fail::new("not to be spoken"));
    }
    Ok(speak(current, terminal, text, line))
}

// How many bytes a text has, and its line with a switch, where it may be spoken.
const LONG: &str = "\
0 = 3
1 = 4
2000 = 2003
2001 = none";

fn put_size(text: &str, out: &mut String) -> Result<(), Fail> {
    if !is_sayable(text) {
        return put_str(out, "none");
    }
    let mut line = [0u8; 2003];
    let size = line_size(0, 1, text, &mut line)?;
    Ok(write!(out, "{size}")?)
}

pub(crate) fn put_long(alloc: Global, size: &str, out: &mut String) -> Result<(), Fail> {
    let mut text = String::new(alloc);
    for _ in 0..size.parse::<u16>()? {
        text.push('x')?;
    }
    put_size(text.as_str(), out)
}

// The terminal that is current, that of a line, and the bytes of its text: the bytes that are written.
const SPOKEN: &str = "\
0 0 72 65 61 64 79 = 72 65 61 64 79 0a
0 10 74 69 63 6b = ff 41 74 69 63 6b 0a
10 0 64 6f 6e 65 = ff 30 64 6f 6e 65 0a
9 15 = ff 46 0a
15 15 = 0a
15 9 78 = ff 39 78 0a";

fn put_line(current: &str, terminal: &str, bytes: &[u8], out: &mut String) -> Result<(), Fail> {
    let mut line = [0u8; 2003];
    let size = line_size(
        current.parse::<u8>()?,
        terminal.parse::<u8>()?,
        str::from_utf8(bytes)?,
        &mut line,
    )?;
    put_digits(out, &line[..size])
}

pub(crate) fn put_spoken(alloc: Global, input: &str, out: &mut String) -> Result<(), Fail> {
    let (current, rest) = input.split_once(" ").unwrap_or((input, ""));
    let (terminal, digits) = rest.split_once(" ").unwrap_or((rest, ""));
    let bytes = bytes_of(alloc, digits)?;
    put_line(current, terminal, &bytes, out)
}

// A stream: each terminal that shows something, and its texts; or the cause of a refusal and its place.
const STREAMS: &str = "\
72 65 61 64 79 0a ff 41 74 69 63 6b 0a ff 30 64 6f 6e 65 0a = 0: ready, done; 10: tick;
nothing = nothing
0a ff 46 0a 0a = 0: ; 15: , ;
ff 41 ff 30 41 0a ff 35 = 0: A;
41 09 0d 0a = 0: A\t\r;
78 ff 31 0a = refused 2 at 0
c3 a9 0a = 0: é;
ff 47 0a = refused 1 at 0
41 = refused 3 at 0
41 0a ff = refused 1 at 2
41 0a c3 0a = refused 2 at 2
41 0a c3 = refused 3 at 2
ff 30 ff = refused 1 at 2
ff 41 ff = refused 1 at 2
ff 41 78 = refused 3 at 2
ff 41 ff ff 0a = refused 1 at 2
c3 0a ff 47 = refused 2 at 0
ff 40 0a = refused 1 at 0
ff 2f 0a = refused 1 at 0
ff 3a 0a = refused 1 at 0
ff 61 0a = refused 1 at 0";

// Puts a terminal and its texts, where it has some, behind those that stand from the start on.
fn put_screen(screens: &Screens, terminal: u8, start: usize, out: &mut String) -> Result<(), Fail>
    requires { terminal < 16 }
{
    let count = screens.count(terminal);
    if count == 0 {
        return Ok(());
    }
    let space = if out.len() > start { " " } else { "" };
    write!(out, "{space}{terminal}: ")?;
    let mut gap = "";
    for place in 0..count {
        write!(out, "{gap}{}", screens.text(terminal, place))?;
        gap = ", ";
    }
    put_str(out, ";")
}

fn put_shown(screens: &Screens, out: &mut String) -> Result<(), Fail> {
    let start = out.len();
    for terminal in 0..16u8 {
        put_screen(screens, terminal, start, out)?;
    }
    if out.len() == start {
        put_str(out, "nothing")?;
    }
    Ok(())
}

fn put_read(alloc: Global, bytes: &[u8], out: &mut String) -> Result<(), Fail> {
    if bytes.len() > 65536 {
        return Err(Fail::new("long"));
    }
    match read_terminals(alloc, bytes) {
        Ok(screens) => put_shown(&screens, out),
        Err(TermFault::Refused { cause, place }) => {
            Ok(write!(out, "refused {cause} at {place}")?)
        }
        Err(TermFault::Memory) => put_str(out, "no memory"),
    }
}

pub(crate) fn put_screens(alloc: Global, digits: &str, out: &mut String) -> Result<(), Fail> {
    let bytes = bytes_of(alloc, if digits == "nothing" { "" } else { digits })?;
    put_read(alloc, &bytes, out)
}

#[test]
fn texts_that_may_be_spoken_are_written_with_their_switches(rt: HostRuntime) -> Result<(), Fail> {
    each_line(&rt, rt.alloc(), NAMED, 10, &Kind::Named)?;
    each_line(&rt, rt.alloc(), SAYABLE, 5, &Kind::Sayable)?;
    each_line(&rt, rt.alloc(), LONG, 4, &Kind::Long)?;
    each_line(&rt, rt.alloc(), SPOKEN, 6, &Kind::Spoken)
}

#[test]
fn streams_show_their_lines_or_their_first_fault(rt: HostRuntime) -> Result<(), Fail> {
    each_line(&rt, rt.alloc(), STREAMS, 21, &Kind::Screens)
}
