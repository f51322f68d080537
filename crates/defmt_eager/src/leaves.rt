//! Single values.

ghost use Rattle.std.specs.Prelude.{◌≡◌, ◌≤◌, ◌^◌, [], length, nat_lt, if◌then◌else◌};
ghost use Rattle.defmt_eager.specs.Answers.{Puts};
ghost use Rattle.defmt_eager.specs.Show.{bits_text, float_text, int_text, text_hint};
ghost use Rattle.defmt_grammar.specs.Sizes.{float_bits, is_signed, size_bits};
ghost use Rattle.defmt_hints.specs.Printed.{printed_char, printed_float, printed_int};
ghost use Rattle.defmt_hints.specs.Written.{Writes};

use defmt_grammar::{FloatSize, Hint, IntSize, Kind};
use defmt_hints::{put_char, put_float, put_int, put_wide_uint};
use defmt_values::{bits_between, float_bits, is_of_bits, is_signed, size_bits};

// Writes a signed number, where it has so many bits.
fn put_sized(out: &mut [u8], at: usize, number: i128, size: IntSize, hint: Hint) -> Option<usize>
    requires { at ≤ length out.old }
    ensures { Writes result out.old at out.new
        (if is_signed (size_bits size) number then printed_int number size hint else []) }
{
    if !is_signed(number, size_bits(size)) {
        return Some(at);
    }
    put_int(out, at, number, size, hint)
}

// Writes a signed number in the size of its kind.
fn put_of_kind(out: &mut [u8], at: usize, number: i128, kind: Kind, hint: Hint) -> Option<usize>
    requires { at ≤ length out.old }
    ensures { Writes result out.old at out.new (int_text kind number hint) }
{
    match kind {
        Kind::Int(size) => put_sized(out, at, number, size, hint),
        _ => Some(at),
    }
}

// Writes a signed number, whose text is UTF-8.
#[inline(always)]
pub(crate) fn put_signed(
    out: &mut [u8],
    at: usize,
    number: i128,
    kind: Kind,
    hint: Hint,
) -> Option<usize>
    requires { at ≤ length out.old }
    ensures { Puts result out.old at out.new (int_text kind number hint) }
{
    put_of_kind(out, at, number, kind, hint)
}

// Writes a character, whose text is UTF-8.
#[inline(always)]
pub(crate) fn put_character(out: &mut [u8], at: usize, character: char, hint: Hint) -> Option<usize>
    requires { at ≤ length out.old }
    ensures { Puts result out.old at out.new (printed_char character hint) }
{
    put_char(out, at, character, hint)
}

// Writes the bit field that the kind names.
pub(crate) fn put_bits(
    out: &mut [u8],
    at: usize,
    number: u128,
    kind: Kind,
    hint: Hint,
) -> Option<usize>
    requires { at ≤ length out.old }
    ensures { Writes result out.old at out.new (bits_text kind number hint) }
{
    match kind {
        Kind::Bits { lo, hi } => { put_wide_uint(out, at, bits_between(number, lo, hi), hint) }
        _ => Some(at),
    }
}

// Writes a float, where it has the bits of this size.
fn put_float_sized(out: &mut [u8], at: usize, bits: u64, size: FloatSize) -> Option<usize>
    requires { at ≤ length out.old }
    ensures { Writes result out.old at out.new
        (if nat_lt bits (2 ^ float_bits size) then printed_float size bits else []) }
{
    if !is_of_bits(u128::from(bits), float_bits(size)) {
        return Some(at);
    }
    put_float(out, at, bits, size)
}

// Writes a float in the size of its kind.
#[inline(never)]
pub(crate) fn put_float_of_kind(out: &mut [u8], at: usize, bits: u64, kind: Kind) -> Option<usize>
    requires { at ≤ length out.old }
    ensures { Writes result out.old at out.new (float_text kind bits) }
{
    match kind {
        Kind::Float(size) => put_float_sized(out, at, bits, size),
        _ => Some(at),
    }
}

// The hint under which a text prints: what a device has printed by itself stands as it is.
#[inline(always)]
pub(crate) fn text_hint(kind: Kind, hint: Hint) -> Hint
    ensures { result ≡ text_hint kind hint }
{
    match kind {
        Kind::Debug | Kind::Display => Hint::Plain,
        _ => hint,
    }
}
