//! What a stream is made of.
ghost use Rattle.std.specs.Prelude.{◌≡◌, ◌<◌, ◌∷◌, length};
ghost use Rattle.rtt_terminal.specs.Stream.{LacksMark};
ghost use Rattle.rtt_terminal.specs.Reading.{Takes, up_to_newline, from_newline};

use crate::digit::terminal_of;
use crate::fault::Cause;
use crate::speaking::MARK;

/// A switch to a terminal, or the text of a line.
pub enum Item<'a> {
    Switch(u8),
    Line(&'a str),
}

// The bytes before the first newline, and the bytes from there on.
fn split_line(bytes: &[u8]) -> (&[u8], &[u8])
    ensures front { result.0.now ≡ up_to_newline bytes.now }
    ensures rest { result.1.now ≡ from_newline bytes.now }
{
    let mut count = 0usize;
    let mut rest = bytes;
    while let [first, more @ ..] = rest {
        if *first == b'\n' {
            break;
        }
        count += 1;
        rest = more;
    }
    (&bytes[..count], rest)
}

// The switch of which the bytes are what follows its `ff`.
fn switch_behind(bytes: &[u8]) -> Result<(Item<'_>, &[u8]), Cause>
    ensures { Takes (255 ∷ bytes.now) result }
{
    match bytes {
        [] => Err(Cause::Switch),
        [byte, after @ ..] => match terminal_of(*byte) {
            Some(terminal) => Ok((Item::Switch(terminal), after)),
            None => Err(Cause::Switch),
        },
    }
}

// The line at the front of bytes that don't begin with a switch.
fn line_before(bytes: &[u8]) -> Result<(Item<'_>, &[u8]), Cause>
    requires some { 0 < length bytes.now }
    requires line { LacksMark bytes.now }
    ensures { Takes bytes.now result }
{
    let (line, behind) = split_line(bytes);
    match behind {
        [] => Err(Cause::Cut),
        [_, after @ ..] => match str::from_utf8(line) {
            Ok(text) => Ok((Item::Line(text), after)),
            Err(_) => Err(Cause::Text),
        },
    }
}

/// The item at the front of some bytes, and what comes after it, or what isn't right there.
pub fn next_item(bytes: &[u8]) -> Result<(Item<'_>, &[u8]), Cause>
    requires { 0 < length bytes.now }
    ensures { Takes bytes.now result }
{
    if bytes[0] == MARK {
        switch_behind(&bytes[1..])
    } else {
        line_before(bytes)
    }
}
