//! Lists of bytes.

ghost use Rattle.std.specs.Prelude.{◌≤◌, length, map};
ghost use Rattle.defmt_hints.specs.Printed.{list_text, printed_byte, printed_bytes};
ghost use Rattle.defmt_hints.specs.Lists.{others_text};
ghost use Rattle.defmt_hints.specs.Written.{Writes};

use crate::numbers::put_decimal;
use crate::quoted::put_byte_text;
use crate::radix::put_radix;
use crate::texts::put;
use defmt_grammar::Hint;

// Writes an element of a list.
fn put_byte(out: &mut [u8], at: usize, byte: u8, hint: Hint) -> Option<usize>
    requires { at ≤ length out.old }
    ensures { Writes result out.old at out.new (printed_byte hint byte) }
{
    match hint {
        Hint::Radix { base, alt, width } => put_radix(out, at, u64::from(byte), base, alt, width),
        Hint::Plain
        | Hint::Debug
        | Hint::Ascii
        | Hint::Micros
        | Hint::Millis
        | Hint::Iso(_)
        | Hint::Clock(_)
        | Hint::Pad(_) => put_decimal(out, at, u64::from(byte)),
    }
}

// Writes elements, each behind a comma and a space.
fn put_others(out: &mut [u8], at: usize, others: &[u8], hint: Hint) -> Option<usize>
    requires { at ≤ length out.old }
    ensures { Writes result out.old at out.new
        (others_text (printed_byte hint) others.now) }
{
    let mut end = at;
    for byte in others {
        let parted = put(out, end, b", ")?;
        end = put_byte(out, parted, *byte, hint)?;
    }
    Some(end)
}

// Writes a list.
fn put_list(out: &mut [u8], at: usize, bytes: &[u8], hint: Hint) -> Option<usize>
    requires { at ≤ length out.old }
    ensures { Writes result out.old at out.new
        (list_text (map (printed_byte hint) bytes.now)) }
{
    let start = put(out, at, b"[")?;
    let Some((first, others)) = bytes.split_first() else {
        return put(out, start, b"]");
    };
    let one = put_byte(out, start, *first, hint)?;
    let all = put_others(out, one, others, hint)?;
    put(out, all, b"]")
}

/// Writes bytes under a display hint of the defmt book: a list, whose elements a radix acts on and no other hint, or under `Ascii` a
/// byte text, as Rust writes a byte string. `None` exactly where this doesn't fit.
pub fn put_bytes(out: &mut [u8], at: usize, bytes: &[u8], hint: Hint) -> Option<usize>
    requires { at ≤ length out.old }
    ensures { Writes result out.old at out.new (printed_bytes bytes.now hint) }
{
    match hint {
        Hint::Ascii => put_byte_text(out, at, bytes),
        Hint::Plain
        | Hint::Debug
        | Hint::Radix { .. }
        | Hint::Micros
        | Hint::Millis
        | Hint::Iso(_)
        | Hint::Clock(_)
        | Hint::Pad(_) => put_list(out, at, bytes, hint),
    }
}
