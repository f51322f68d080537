//! Writing names, marks, bytes and floats.
ghost use Rattle.std.specs.Prelude.{◌≡◌, ◌<◌, ◌^◌, ◌++◌, OnOk, codes};
ghost use Rattle.defmt_grammar.specs.Sizes.{float_bits};
ghost use Rattle.defmt_spelling.specs.Printed.{name_text, hex_text, is_odd_nan, bits_text, float_spelling, float_text, gap, call_mark, item_mark, node_slots, first_slot, more_slots};

use crate::names::Names;
use defmt_grammar::{Base, FloatSize, Hint, Kind, Memory, Slot, Text};
use defmt_hints::{show_float, show_uint};
use defmt_intern::Table;
use defmt_values::{cut, float_bits, form_of, is_of_bits, pick};

/// The least name of an index, and nothing where it has none.
pub fn push_name(out: &mut Text, names: &Names, index: u16) -> Result<(), Memory>
    ensures { OnOk result (out.new ≡ out.old ++ name_text names.now index) }
{
    match names.name_of(index) {
        Some(name) => out.push_str(name),
        None => Ok(()),
    }
}

/// A space in front of all but the first.
pub fn push_gap(out: &mut Text, first: bool) -> Result<(), Memory>
    ensures { OnOk result (out.new ≡ out.old ++ gap first) }
{
    if first { Ok(()) } else { out.push_str(" ") }
}

#[tactic(auto, unfolding(crate::specs::Printed::hex_text))]
fn push_hex(out: &mut Text, bytes: &[u8]) -> Result<(), Memory>
    ensures { OnOk result (out.new ≡ out.old ++ hex_text bytes.now) }
{
    let two_digits = Hint::Radix {
        base: Base::Hex,
        alt: false,
        width: 2,
    };
    let mut rest = bytes;
    'each: while let Some((byte, more)) = cut(rest) {
        show_uint(u128::from(*byte), &two_digits, out)?;
        rest = more;
    }
    Ok(())
}

/// A variant behind a name.
pub fn push_call_mark(out: &mut Text, variant: Option<u8>) -> Result<(), Memory>
    ensures { OnOk result (out.new ≡ out.old ++ call_mark variant) }
{
    match variant {
        None => Ok(()),
        Some(v) => {
            out.push_str(":")?;
            show_uint(u128::from(v), &Hint::Plain, out)
        }
    }
}

/// A variant in front of an element.
pub fn push_item_mark(out: &mut Text, variant: Option<u8>) -> Result<(), Memory>
    ensures { OnOk result (out.new ≡ out.old ++ item_mark variant) }
{
    match variant {
        None => Ok(()),
        Some(v) => show_uint(u128::from(v), &Hint::Plain, out),
    }
}

/// An interned text by its name.
pub fn push_interned(out: &mut Text, names: &Names, index: u16) -> Result<(), Memory>
    ensures { OnOk result (out.new ≡ out.old ++ (codes "@" ++ name_text names.now index)) }
{
    out.push_str("@")?;
    push_name(out, names, index)
}

/// Bytes as pairs of digits.
pub fn push_bytes(out: &mut Text, bytes: &[u8]) -> Result<(), Memory>
    ensures { OnOk result (out.new ≡ out.old ++ (codes "#" ++ hex_text bytes.now)) }
{
    out.push_str("#")?;
    push_hex(out, bytes)
}

// Whether a float is no number and has other bits than the one that `NaN` stands for.
#[tactic(auto, unfolding(crate::specs::Printed::is_odd_nan))]
fn is_odd_nan(size: FloatSize, bits: u64) -> bool
    ensures { result ≡ is_odd_nan size bits }
{
    match size {
        FloatSize::W32 => bits % 0x8000_0000 > 0x7f80_0000 && bits != 0x7fc0_0000,
        FloatSize::W64 => {
            bits % 0x8000_0000_0000_0000 > 0x7ff0_0000_0000_0000 && bits != 0x7ff8_0000_0000_0000
        }
    }
}

// All digits of the bits of a float.
fn push_bits(out: &mut Text, size: FloatSize, bits: u64) -> Result<(), Memory>
    ensures { OnOk result (out.new ≡ out.old ++ bits_text size bits) }
{
    let width = match size {
        FloatSize::W32 => 8,
        FloatSize::W64 => 16,
    };
    let digits = Hint::Radix {
        base: Base::Hex,
        alt: false,
        width,
    };
    out.push_str("0x")?;
    show_uint(u128::from(bits), &digits, out)
}

fn push_spelling(out: &mut Text, size: FloatSize, bits: u64) -> Result<(), Memory>
    requires { bits < 2 ^ float_bits size }
    ensures { OnOk result (out.new ≡ out.old ++ float_spelling size bits) }
{
    if is_odd_nan(size, bits) {
        push_bits(out, size, bits)
    } else {
        show_float(bits, size, out)
    }
}

/// A float of a slot; nothing where it is none of it.
#[tactic(auto, unfolding(crate::specs::Printed::float_text))]
pub fn push_float(out: &mut Text, slot: Slot, bits: u64) -> Result<(), Memory>
    ensures { OnOk result (out.new ≡ out.old ++ float_text slot bits) }
{
    match slot {
        Slot::One(Kind::Float(size)) if is_of_bits(u128::from(bits), float_bits(size)) => {
            push_spelling(out, size, bits)
        }
        _ => Ok(()),
    }
}

/// The slots of a Format value's text, or of its variant's; none where it has none.
pub fn node_slots(table: &Table, index: u16, variant: Option<u8>) -> &[Slot]
    ensures { result.now ≡ node_slots table.now.entries index variant }
{
    let Ok(form) = form_of(table, index) else {
        return &[];
    };
    match pick(form, variant) {
        Ok(pieces) => pieces.slots(),
        Err(_) => &[],
    }
}

/// The first slot, and those behind it.
pub fn next_slot(slots: &[Slot]) -> (Slot, &[Slot])
    ensures first { result.0 ≡ first_slot slots.now }
    ensures more { result.1.now ≡ more_slots slots.now }
{
    match cut(slots) {
        Some((slot, more)) => (*slot, more),
        None => (Slot::One(Kind::Bool), &[]),
    }
}
