//! Texts in JSON.
ghost use Rattle.std.specs.Prelude.{◌≡◌, ◌≤◌, ◌+◌, ◌*◌, ◌/◌, ◌%◌, ◌++◌, ◌∷◌, [], length, take, drop, OnOk};
ghost use Rattle.std.specs.Char.{digit_char};
ghost use Rattle.json.specs.Print.{escape, escape_byte, quoted};

use crate::looks::{are_bare, is_bare};
use crate::tame::digit;
use dl_io::{Bytes, Memory};

/// Appends a text between quotes, with the escapes that `serde_json` writes.
pub fn add_quoted(text: &[u8], out: &mut Bytes) -> Result<(), Memory>
    ensures { OnOk result (out.new.items ≡ out.old.items ++ quoted text.now) }
{
    out.push(b'"')?;
    add_escaped(text, out)?;
    out.push(b'"')
}

/// Appends a text with its escapes.
pub(crate) fn add_escaped(text: &[u8], out: &mut Bytes) -> Result<(), Memory>
    ensures { OnOk result (out.new.items ≡ out.old.items ++ escape text.now) }
{
    if are_bare(text) {
        return out.extend_from_slice(text);
    }
    add_runs(text, out)
}

// The same of any text: what needs no escape up to the next byte that does, and then that byte.
fn add_runs(text: &[u8], out: &mut Bytes) -> Result<(), Memory>
    ensures { OnOk result (out.new.items ≡ out.old.items ++ escape text.now) }
{
    let mut rest = text;
    'runs: loop {
        let run = plain_run(rest);
        out.extend_from_slice(&rest[..run])?;
        rest = &rest[run..];
        let Some((byte, behind)) = rest.split_first() else {
            return Ok(());
        };
        add_escape(*byte, out)?;
        rest = behind;
    }
}

// How many bytes at the front need no escape.
fn plain_run(text: &[u8]) -> usize
    ensures within { result ≤ length text.now }
    ensures plain { escape text.now ≡ take result text.now ++ escape (drop result text.now) }
{
    for (i, byte) in text.iter().enumerate() {
        if !is_bare(*byte) {
            return i;
        }
    }
    text.len()
}

/// Appends a text with its escapes, where for each of its bytes there is room for six.
pub(crate) fn put_escaped(text: &[u8], out: &mut Bytes)
    requires { 6 * length text.now ≤ out.old.room }
    ensures items { out.new.items ≡ out.old.items ++ escape text.now }
    ensures room { out.old.room ≤ out.new.room + 6 * length text.now }
{
    let mut rest = text;
    'runs: loop {
        let run = plain_run(rest);
        out.extend_reserved(&rest[..run]);
        rest = &rest[run..];
        let Some((byte, behind)) = rest.split_first() else {
            return;
        };
        put_escape(*byte, out);
        rest = behind;
    }
}

// Appends what stands for a byte in a string.
fn add_escape(byte: u8, out: &mut Bytes) -> Result<(), Memory>
    ensures { OnOk result (out.new.items ≡ out.old.items ++ escape_byte byte) }
{
    out.reserve(6)?;
    put_escape(byte, out);
    Ok(())
}

// The same where there is room for six bytes.
#[inline(never)]
#[tactic(auto, unfolding(json::specs::Print::escape_byte))]
fn put_escape(byte: u8, out: &mut Bytes)
    requires { 6 ≤ out.old.room }
    ensures items { out.new.items ≡ out.old.items ++ escape_byte byte }
    ensures room { out.old.room ≤ out.new.room + 6 }
{
    match byte {
        b'"' | b'\\' => out.extend_reserved(&[b'\\', byte]),
        8 => out.extend_reserved(b"\\b"),
        12 => out.extend_reserved(b"\\f"),
        b'\n' => out.extend_reserved(b"\\n"),
        b'\r' => out.extend_reserved(b"\\r"),
        b'\t' => out.extend_reserved(b"\\t"),
        0..=31 => put_number_escape(byte, out),
        _ => out.push_reserved(byte),
    }
}

// Appends the escape of a byte below the space that has no letter, where there is room for it.
fn put_number_escape(byte: u8, out: &mut Bytes)
    requires { 6 ≤ out.old.room }
    ensures items { out.new.items ≡ out.old.items
        ++ (92 ∷ 117 ∷ 48 ∷ 48 ∷ digit_char (byte / 16) ∷ digit_char (byte % 16) ∷ []) }
    ensures room { out.new.room + 6 ≡ out.old.room }
{
    let escape = [b'\\', b'u', b'0', b'0', digit(byte / 16), digit(byte % 16)];
    out.extend_reserved(&escape);
}
