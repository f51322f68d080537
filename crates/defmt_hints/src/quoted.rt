//! Texts in quotes.

ghost use Rattle.std.specs.Prelude.{◌≡◌, ◌≢◌, ◌≤◌, None, is_none, length};
ghost use Rattle.std.specs.List.{flat_map};
ghost use Rattle.defmt_hints.specs.Escapes.{escape_of, byte_escape_of, quoted_text, byte_text};
ghost use Rattle.defmt_hints.specs.Quotings.{escape_in, by_escapes, opening, closing, quoted_in};
ghost use Rattle.defmt_hints.specs.Written.{Writes};
ghost use Rattle.defmt_hints.specs.declared.quoted.Quoting.{Quoting as AnyQuoting};

use crate::radix::glyph;
use crate::texts::{put, put_text};

// What stands in quotes, which says what is escaped.
#[derive(Clone, Copy)]
pub(crate) enum Quoting {
    Character,
    Text,
    Bytes,
}

// Whether a byte stands for itself.
#[inline(always)]
#[tactic(auto, unfolding(crate::specs::Escapes::escape_of, crate::specs::Escapes::byte_escape_of))]
fn is_bare(byte: u8, quoting: Quoting) -> bool
    ensures { result ≡ is_none (escape_in quoting byte) }
{
    match quoting {
        Quoting::Character => !matches!(byte, b'\\' | b'\'' | b'\n' | b'\r' | b'\t'),
        Quoting::Text => !matches!(byte, b'\\' | b'"' | b'\n' | b'\r' | b'\t'),
        Quoting::Bytes => {
            !matches!(byte, b'\\' | b'"' | b'\n' | b'\r' | b'\t') && matches!(byte, 0x20..=0x7e)
        }
    }
}

// Writes the escape of a byte that has one.
#[inline(never)]
fn put_escape(out: &mut [u8], at: usize, byte: u8) -> Option<usize>
    requires { at ≤ length out.old }
    ensures { (quoting : AnyQuoting) → escape_in quoting byte ≢ None
        → Writes result out.old at out.new (by_escapes (escape_in quoting) byte) }
{
    match byte {
        b'\n' => put(out, at, b"\\n"),
        b'\r' => put(out, at, b"\\r"),
        b'\t' => put(out, at, b"\\t"),
        0x20..=0x7e => put(out, at, &[b'\\', byte]),
        _ => {
            let escape = [
                b'\\',
                b'x',
                glyph(byte / 16, false),
                glyph(byte % 16, false),
            ];
            put(out, at, &escape)
        }
    }
}

// Writes a text with its escapes.
#[inline(always)]
fn put_escaped(out: &mut [u8], at: usize, text: &[u8], quoting: Quoting) -> Option<usize>
    requires { at ≤ length out.old }
    ensures { Writes result out.old at out.new
        (flat_map (by_escapes (escape_in quoting)) text.now) }
{
    let mut end = at;
    let mut start = 0;
    for (i, byte) in text.iter().enumerate() {
        if !is_bare(*byte, quoting) {
            let run = put_text(out, end, &text[start..i])?;
            end = put_escape(out, run, *byte)?;
            start = i + 1;
        }
    }
    put_text(out, end, &text[start..])
}

fn opening(quoting: Quoting) -> &'static str
    ensures { result.now ≡ opening quoting }
{
    match quoting {
        Quoting::Character => "'",
        Quoting::Text => "\"",
        Quoting::Bytes => "b\"",
    }
}

fn closing(quoting: Quoting) -> &'static str
    ensures { result.now ≡ closing quoting }
{
    match quoting {
        Quoting::Character => "'",
        Quoting::Text | Quoting::Bytes => "\"",
    }
}

// Writes a text between its quotes. It is compiled for each of them.
#[inline(always)]
fn put_between(out: &mut [u8], at: usize, text: &[u8], quoting: Quoting) -> Option<usize>
    requires { at ≤ length out.old }
    ensures { Writes result out.old at out.new (quoted_in quoting text.now) }
{
    let start = put(out, at, opening(quoting).as_bytes())?;
    let end = put_escaped(out, start, text, quoting)?;
    put(out, end, closing(quoting).as_bytes())
}

// Writes a character between `'`.
#[inline(never)]
pub(crate) fn put_quoted_char(out: &mut [u8], at: usize, character: &[u8]) -> Option<usize>
    requires { at ≤ length out.old }
    ensures { Writes result out.old at out.new (quoted_text 39 character.now) }
{
    put_between(out, at, character, Quoting::Character)
}

// Writes a text between `"`. It stands apart, so that other texts are written without what it needs.
#[inline(never)]
pub(crate) fn put_quoted_str(out: &mut [u8], at: usize, text: &[u8]) -> Option<usize>
    requires { at ≤ length out.old }
    ensures { Writes result out.old at out.new (quoted_text 34 text.now) }
{
    put_between(out, at, text, Quoting::Text)
}

// Writes bytes as a byte text.
#[inline(never)]
pub(crate) fn put_byte_text(out: &mut [u8], at: usize, bytes: &[u8]) -> Option<usize>
    requires { at ≤ length out.old }
    ensures { Writes result out.old at out.new (byte_text bytes.now) }
{
    put_between(out, at, bytes, Quoting::Bytes)
}
