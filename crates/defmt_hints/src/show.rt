//! The same texts, appended to a `Text`. Each is written into a room that grows until it takes it.

ghost use Rattle.std.specs.Prelude.{◌≡◌, ◌<◌, ◌≤◌, ◌*◌, ◌^◌, replicate, length, take, IfOk};
ghost use Rattle.std.specs.Str.{IsUtf8};
ghost use Rattle.defmt_grammar.specs.Sizes.{float_bits, size_bits, IsSigned};
ghost use Rattle.defmt_hints.specs.Appends.{Appends};
ghost use Rattle.defmt_hints.specs.Printed.{printed_uint, printed_int, printed_bool, printed_char, printed_str, printed_bytes, printed_float};

use crate::lists::put_bytes;
use crate::numbers::{put_int, put_wide_uint};
use crate::texts::{put_bool, put_char, put_str};
use defmt_floats::{f32_text, f64_text};
use defmt_grammar::{FloatSize, Hint, IntSize, Memory, Text};
use std::str;

// The first room takes each number, truth value and character: they have no more than 300 bytes and the zeros of a width.
const ROOM: usize = 560;

// A room of so many bytes.
fn room_of(out: &Text, size: usize) -> Result<Vec<u8>, Memory>
    ensures { IfOk result (λ room. room.items ≡ replicate size 0) }
{
    Ok(vec![in out.allocator(); 0u8; size]?)
}

// Four times as many bytes.
fn larger(size: usize) -> Result<usize, Memory>
    ensures { IfOk result (λ more. more ≡ 4 * size) }
{
    match size.checked_mul(4) {
        Some(more) => Ok(more),
        None => Err(Memory),
    }
}

// Appends what stands in front of a place.
fn append(out: &mut Text, room: &[u8], end: usize) -> Result<(), Memory>
    requires within { end ≤ length room.now }
    requires utf8 { IsUtf8 (take end room.now) }
    ensures { Appends result out.old out.new (take end room.now) }
{
    match str::from_utf8(&room[..end]) {
        Ok(text) => out.push_str(text),
        Err(_) => unreachable!(),
    }
}

/// Appends an unsigned number under a display hint of the defmt book: in decimal, in the hint's base as Rust prints it,
/// or under `Micros` and `Millis` divided by 1,000,000 and 1,000, with six and three digits behind the point; under `Iso` as date
/// and time, under `Clock` as a clock's time, under `Pad` in decimal with zeros in front.
///
/// `Memory` is want of memory: a front of the text was appended.
pub fn show_uint(value: u128, hint: &Hint, out: &mut Text) -> Result<(), Memory>
    ensures { Appends result out.old out.new (printed_uint value hint.now) }
{
    let mut size = ROOM;
    'rooms: loop {
        let mut room = room_of(out, size)?;
        let place = room.as_mut_slice();
        if let Some(end) = put_wide_uint(place, 0, value, *hint) {
            return append(out, place, end);
        }
        size = larger(size)?;
    }
}

/// Appends a signed number of a size under a display hint of the defmt book: in decimal, under `Pad` with zeros up to a
/// width, which counts the `-`, or under `Radix` its two's complement in the size's width, in the hint's base as Rust
/// prints it. `Native` has 32 bits.
///
/// `Memory` is want of memory: a front of the text was appended.
pub fn show_int(value: i128, size: IntSize, hint: &Hint, out: &mut Text) -> Result<(), Memory>
    requires { IsSigned (size_bits size) value }
    ensures { Appends result out.old out.new (printed_int value size hint.now) }
{
    let mut many = ROOM;
    'rooms: loop {
        let mut room = room_of(out, many)?;
        let place = room.as_mut_slice();
        if let Some(end) = put_int(place, 0, value, size, *hint) {
            return append(out, place, end);
        }
        many = larger(many)?;
    }
}

/// Appends the float with these bits, which are below 2 to the power of the size's bits: the shortest decimal that reads
/// back as it, `NaN`, `inf` or `-inf`, the same under every display hint of the defmt book.
///
/// `Memory` is want of memory: a front of the text was appended.
pub fn show_float(bits: u64, size: FloatSize, out: &mut Text) -> Result<(), Memory>
    requires { bits < 2 ^ float_bits size }
    ensures { Appends result out.old out.new (printed_float size bits) }
{
    match size {
        FloatSize::W32 => out.push_str(f32_text(bits as u32).as_str()),
        FloatSize::W64 => out.push_str(f64_text(bits).as_str()),
    }
}

/// Appends `true` or `false`, which are the same under every display hint of the defmt book.
///
/// `Memory` is want of memory: a front of the text was appended.
pub fn show_bool(value: bool, out: &mut Text) -> Result<(), Memory>
    ensures { Appends result out.old out.new (printed_bool value) }
{
    let mut size = ROOM;
    'rooms: loop {
        let mut room = room_of(out, size)?;
        let place = room.as_mut_slice();
        if let Some(end) = put_bool(place, 0, value) {
            return append(out, place, end);
        }
        size = larger(size)?;
    }
}

/// Appends a character, as UTF-8. Under the debug hint of the defmt book it stands between `'`, and the backslash, `'`,
/// newline, carriage return and tab are escaped.
///
/// `Memory` is want of memory: a front of the text was appended.
pub fn show_char(value: char, hint: &Hint, out: &mut Text) -> Result<(), Memory>
    ensures { Appends result out.old out.new (printed_char value hint.now) }
{
    let mut size = ROOM;
    'rooms: loop {
        let mut room = room_of(out, size)?;
        let place = room.as_mut_slice();
        if let Some(end) = put_char(place, 0, value, *hint) {
            return append(out, place, end);
        }
        size = larger(size)?;
    }
}

/// Appends a text. Under the debug hint of the defmt book it stands between `"`, and the backslash, `"`, newline,
/// carriage return and tab are escaped.
///
/// `Memory` is want of memory: a front of the text was appended.
pub fn show_str(value: &str, hint: &Hint, out: &mut Text) -> Result<(), Memory>
    ensures { Appends result out.old out.new (printed_str value.now hint.now) }
{
    let mut size = ROOM;
    'rooms: loop {
        let mut room = room_of(out, size)?;
        let place = room.as_mut_slice();
        if let Some(end) = put_str(place, 0, value, *hint) {
            return append(out, place, end);
        }
        size = larger(size)?;
    }
}

/// Appends bytes under a display hint of the defmt book: a list, whose elements a radix acts on and no other hint, or
/// under `Ascii` a byte text, as Rust writes a byte string.
///
/// `Memory` is want of memory: a front of the text was appended.
pub fn show_bytes(value: &[u8], hint: &Hint, out: &mut Text) -> Result<(), Memory>
    ensures { Appends result out.old out.new (printed_bytes value.now hint.now) }
{
    let mut size = ROOM;
    'rooms: loop {
        let mut room = room_of(out, size)?;
        let place = room.as_mut_slice();
        if let Some(end) = put_bytes(place, 0, value, *hint) {
            return append(out, place, end);
        }
        size = larger(size)?;
    }
}
