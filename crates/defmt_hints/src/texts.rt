//! Truth values, characters and texts.

ghost use Rattle.std.specs.Prelude.{◌≤◌, length};
ghost use Rattle.defmt_hints.specs.Printed.{printed_bool, printed_char, printed_str};
ghost use Rattle.defmt_hints.specs.Written.{Writes};

use crate::quoted::{put_quoted_char, put_quoted_str};
use defmt_grammar::Hint;

/// Writes these bytes. `None` exactly where they don't fit.
#[inline(always)]
pub fn put(out: &mut [u8], at: usize, text: &[u8]) -> Option<usize>
    requires { at ≤ length out.old }
    ensures { Writes result out.old at out.new text.now }
{
    if out.len() - at < text.len() {
        return None;
    }
    let end = at + text.len();
    out[at..end].copy_from_slice(text);
    Some(end)
}

/// Writes these bytes by a call, where their number isn't known. `None` exactly where they don't fit.
#[inline(never)]
pub fn put_text(out: &mut [u8], at: usize, text: &[u8]) -> Option<usize>
    requires { at ≤ length out.old }
    ensures { Writes result out.old at out.new text.now }
{
    put(out, at, text)
}

/// Writes `true` or `false`, which are the same under every display hint of the defmt book. `None` exactly where the word doesn't
/// fit.
pub fn put_bool(out: &mut [u8], at: usize, value: bool) -> Option<usize>
    requires { at ≤ length out.old }
    ensures { Writes result out.old at out.new (printed_bool value) }
{
    if value {
        put(out, at, b"true")
    } else {
        put(out, at, b"false")
    }
}

/// Writes a character, as UTF-8. Under the debug hint of the defmt book it stands between `'`, and the backslash, `'`, newline,
/// carriage return and tab are escaped. `None` exactly where this doesn't fit.
pub fn put_char(out: &mut [u8], at: usize, character: char, hint: Hint) -> Option<usize>
    requires { at ≤ length out.old }
    ensures { Writes result out.old at out.new (printed_char character hint) }
{
    let mut buffer = [0; 4];
    let text = character.encode_utf8(&mut buffer);
    match hint {
        Hint::Debug => put_quoted_char(out, at, text.as_bytes()),
        Hint::Plain
        | Hint::Radix { .. }
        | Hint::Ascii
        | Hint::Micros
        | Hint::Millis
        | Hint::Iso(_)
        | Hint::Clock(_)
        | Hint::Pad(_) => put(out, at, text.as_bytes()),
    }
}

/// Writes a text. Under the debug hint of the defmt book it stands between `"`, and the backslash, `"`, newline, carriage return
/// and tab are escaped. `None` exactly where this doesn't fit.
pub fn put_str(out: &mut [u8], at: usize, text: &str, hint: Hint) -> Option<usize>
    requires { at ≤ length out.old }
    ensures { Writes result out.old at out.new (printed_str text.now hint) }
{
    match hint {
        Hint::Debug => put_quoted_str(out, at, text.as_bytes()),
        Hint::Plain
        | Hint::Radix { .. }
        | Hint::Ascii
        | Hint::Micros
        | Hint::Millis
        | Hint::Iso(_)
        | Hint::Clock(_)
        | Hint::Pad(_) => put_text(out, at, text.as_bytes()),
    }
}
