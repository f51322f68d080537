//! The reading of a script.

ghost use Rattle.std.specs.Prelude.{◌≡◌, ◌<◌, ◌^◌, ℕ, List, Result, length};
ghost use Rattle.defmt_lines.specs.Line.{Line as Said, Says};
ghost use Rattle.defmt_script.specs.Answers.{Answers, GivesOnly, TakesLine, fault_of};
ghost use Rattle.defmt_script.specs.Reads.{Reads};
ghost use Rattle.defmt_script.specs.Script.{Refusal, Script as Read};

use crate::fault::{LineFault, ScriptFault};
use crate::reading::Reading;
use crate::script::Script;
use defmt_lines::{
    next_line, next_text_line, one_verdict, read_line, read_statement, read_text_line, some_verdict,
};
use std::alloc::Global;
use std::str;

/// The script that a text spells, line by line.
///
/// # Errors
/// `ScriptFault::Refused` with the first line that is refused, `ScriptFault::Memory` where memory runs out.
pub fn read(alloc: Global, text: &[u8]) -> Result<Script, ScriptFault>
    requires { length text.now < 2 ^ 32 }
    // A script is answered only where the text reads as it, and a refusal only where it is that of the first refused line.
    ensures answer { Answers text.now result }
    // Unless memory runs out, what the text reads as is answered.
    ensures decides { (reading : Result Read Refusal)
        → Reads text.now reading → GivesOnly result reading }
{
    one_reading();
    read_lines(alloc, text)
}

/// A text reads as one script, or is refused at one line for one cause.
pub fn one_reading()
    ensures { (text : List ℕ) (reading other : Result Read Refusal)
        → Reads text reading → Reads text other → reading ≡ other }
{
    one_verdict();
    defmt_spelling::one_reading();
}

/// Each text reads as a script, or is refused at a line.
pub fn some_reading()
    ensures { (text : List ℕ) → (reading : Result Read Refusal) × Reads text reading }
{
    some_verdict();
    defmt_spelling::some_reading();
}

// What is answered for a line that isn't taken.
fn fault_of(number: u32, fault: LineFault) -> ScriptFault
    ensures { result ≡ fault_of number fault }
{
    match fault {
        LineFault::Refused(cause) => ScriptFault::Refused {
            line: number,
            cause: cause.number(),
            inner: cause.inner(),
        },
        LineFault::Memory => ScriptFault::Memory,
    }
}

// Whether the whole text is UTF-8 is looked at once: then each of its lines is.
fn read_lines(alloc: Global, text: &[u8]) -> Result<Script, ScriptFault>
    requires { length text.now < 2 ^ 32 }
    ensures { Answers text.now result }
{
    match str::from_utf8(text) {
        Ok(text) => read_text(alloc, text),
        Err(_) => read_bytes(alloc, text),
    }
}

// Takes a line that is known to be UTF-8: most are statements.
#[inline(always)]
fn take_text_line(reading: &mut Reading, line: &str) -> Result<(), LineFault>
    ensures { (said : Said) × Says line.now said × TakesLine reading.old said result reading.new }
{
    match read_statement(line) {
        Some(line) => reading.take_statement(line.writer, line.field, line.rest),
        None => take_any_line(reading, line),
    }
}

// The same of any line.
#[inline(never)]
fn take_any_line(reading: &mut Reading, line: &str) -> Result<(), LineFault>
    ensures { (said : Said) × Says line.now said × TakesLine reading.old said result reading.new }
{
    reading.take_line(read_text_line(line))
}

// A script that is UTF-8.
fn read_text(alloc: Global, text: &str) -> Result<Script, ScriptFault>
    requires { length text.now < 2 ^ 32 }
    ensures { Answers text.now result }
{
    let mut reading = Reading::new(alloc)?;
    let mut number = 0u32;
    let mut rest = text;
    while !rest.is_empty() {
        let (line, after) = next_text_line(rest);
        number += 1;
        match take_text_line(&mut reading, line) {
            Ok(()) => {}
            Err(fault) => return Err(fault_of(number, fault)),
        }
        rest = after;
    }
    Ok(reading.finish()?)
}

// A script that isn't: each line is looked at by itself.
#[inline(never)]
fn read_bytes(alloc: Global, text: &[u8]) -> Result<Script, ScriptFault>
    requires { length text.now < 2 ^ 32 }
    ensures { Answers text.now result }
{
    let mut reading = Reading::new(alloc)?;
    let mut number = 0u32;
    let mut rest = text;
    while !rest.is_empty() {
        let (line, after) = next_line(rest);
        number += 1;
        match reading.take_line(read_line(line)) {
            Ok(()) => {}
            Err(fault) => return Err(fault_of(number, fault)),
        }
        rest = after;
    }
    Ok(reading.finish()?)
}
