//! Values that hold no others, each read and written before the next.

ghost use Rattle.std.specs.Prelude.{◌≡◌, ◌≤◌, length};
ghost use Rattle.defmt_grammar.specs.Sizes.{float_bytes};
ghost use Rattle.defmt_grammar.specs.declared.hint.Hint.{Hint as Shape};
ghost use Rattle.defmt_grammar.specs.declared.kind.Kind.TheVariants as kinds;
ghost use Rattle.defmt_intern.specs.Table.{Map};
ghost use Rattle.defmt_plan.specs.Passed.{PassesOne};

use crate::take::{
    take_bool, take_char, take_chunk, take_float, take_shown, take_sized, take_str, take_uint,
};
use defmt_encode::size_bytes;
use defmt_grammar::{FloatSize, Hint, IntSize, Kind};
use defmt_hints::{
    put_bool, put_bytes, put_char, put_complement, put_float, put_str, put_text, put_uint,
};

// How far a pass has come: the place in the message, and the place in the buffer.
#[derive(Clone, Copy)]
pub(crate) struct Progress {
    pub read: usize,
    pub written: usize,
}

// What a call answered, as it is. A call's answer stands in memory; read from there at once, it leaves the answers that are made
// without a call in registers.
#[inline(always)]
pub(crate) fn read_at_once(after: Option<Progress>) -> Option<Progress>
    ensures { result ≡ after }
{
    Some(after?)
}

// An unsigned number.
#[inline(always)]
pub(crate) fn pass_uint(
    size: IntSize,
    hint: Hint,
    bytes: &[u8],
    before: Progress,
    out: &mut [u8],
) -> Option<Progress>
    requires read { before.read ≤ length bytes.now }
    requires written { before.written ≤ length out.old }
    ensures { (t : Map) → PassesOne result t (kinds.Uint size) hint bytes.now before
        out.old out.new }
{
    let width = usize::from(size_bytes(size));
    let number = take_sized(bytes, before.read, size)?;
    let written = put_uint(out, before.written, number, hint)?;
    Some(Progress {
        read: before.read + width,
        written,
    })
}

// A truth value.
fn pass_bool(bytes: &[u8], before: Progress, out: &mut [u8]) -> Option<Progress>
    requires read { before.read ≤ length bytes.now }
    requires written { before.written ≤ length out.old }
    ensures { (t : Map) (hint : Shape) → PassesOne result t kinds.Bool hint bytes.now before
        out.old out.new }
{
    let value = take_bool(bytes, before.read)?;
    let written = put_bool(out, before.written, value)?;
    Some(Progress {
        read: before.read + 1,
        written,
    })
}

// A text.
fn pass_str(hint: Hint, bytes: &[u8], before: Progress, out: &mut [u8]) -> Option<Progress>
    requires read { before.read ≤ length bytes.now }
    requires written { before.written ≤ length out.old }
    ensures { (t : Map) → PassesOne result t kinds.Str hint bytes.now before out.old out.new }
{
    let text = take_str(bytes, before.read)?;
    let written = put_str(out, before.written, text, hint)?;
    Some(Progress {
        read: before.read + 4 + text.len(),
        written,
    })
}

// A signed number.
#[inline(always)]
fn pass_int(
    size: IntSize,
    hint: Hint,
    bytes: &[u8],
    before: Progress,
    out: &mut [u8],
) -> Option<Progress>
    requires read { before.read ≤ length bytes.now }
    requires written { before.written ≤ length out.old }
    ensures { (t : Map) → PassesOne result t (kinds.Int size) hint bytes.now before
        out.old out.new }
{
    let width = usize::from(size_bytes(size));
    let number = take_sized(bytes, before.read, size)?;
    let written = put_complement(out, before.written, number, size, hint)?;
    Some(Progress {
        read: before.read + width,
        written,
    })
}

// A character.
fn pass_char(hint: Hint, bytes: &[u8], before: Progress, out: &mut [u8]) -> Option<Progress>
    requires read { before.read ≤ length bytes.now }
    requires written { before.written ≤ length out.old }
    ensures { (t : Map) → PassesOne result t kinds.Char hint bytes.now before out.old out.new }
{
    let character = take_char(bytes, before.read)?;
    let written = put_char(out, before.written, character, hint)?;
    Some(Progress {
        read: before.read + 4,
        written,
    })
}

// Bytes behind their number.
fn pass_bytes(hint: Hint, bytes: &[u8], before: Progress, out: &mut [u8]) -> Option<Progress>
    requires read { before.read ≤ length bytes.now }
    requires written { before.written ≤ length out.old }
    ensures { (t : Map) → PassesOne result t kinds.Bytes hint bytes.now before out.old out.new }
{
    let count = take_uint(bytes, before.read, 4)? as usize;
    let start = before.read + 4;
    let chunk = take_chunk(bytes, start, count)?;
    let written = put_bytes(out, before.written, chunk, hint)?;
    Some(Progress {
        read: start + count,
        written,
    })
}

// So many bytes.
fn pass_array(
    count: u16,
    hint: Hint,
    bytes: &[u8],
    before: Progress,
    out: &mut [u8],
) -> Option<Progress>
    requires read { before.read ≤ length bytes.now }
    requires written { before.written ≤ length out.old }
    ensures { (t : Map) → PassesOne result t (kinds.ByteArray count) hint bytes.now before
        out.old out.new }
{
    let size = usize::from(count);
    let chunk = take_chunk(bytes, before.read, size)?;
    let written = put_bytes(out, before.written, chunk, hint)?;
    Some(Progress {
        read: before.read + size,
        written,
    })
}

// The bytes of a float.
fn float_width(size: FloatSize) -> usize
    ensures { result ≡ float_bytes size }
{
    match size {
        FloatSize::W32 => 4,
        FloatSize::W64 => 8,
    }
}

// A float, which looks the same under each hint.
#[inline(never)]
fn pass_float(size: FloatSize, bytes: &[u8], before: Progress, out: &mut [u8]) -> Option<Progress>
    requires read { before.read ≤ length bytes.now }
    requires written { before.written ≤ length out.old }
    ensures { (t : Map) (hint : Shape) → PassesOne result t (kinds.Float size) hint bytes.now before
        out.old out.new }
{
    let bits = take_float(bytes, before.read, size)?;
    let written = put_float(out, before.written, bits, size)?;
    Some(Progress {
        read: before.read + float_width(size),
        written,
    })
}

// A text of Debug or Display, which looks the same under each hint.
#[inline(never)]
fn pass_shown(bytes: &[u8], before: Progress, out: &mut [u8]) -> Option<Progress>
    requires read { before.read ≤ length bytes.now }
    requires written { before.written ≤ length out.old }
    ensures debug { (t : Map) (hint : Shape) → PassesOne result t kinds.Debug hint bytes.now before
        out.old out.new }
    ensures display { (t : Map) (hint : Shape) → PassesOne result t kinds.Display hint bytes.now
        before out.old out.new }
{
    let text = take_shown(bytes, before.read)?;
    let written = put_text(out, before.written, text.as_bytes())?;
    Some(Progress {
        read: before.read + text.len() + 1,
        written,
    })
}

// A value of a kind that is usual. It stands in its callers, since most statements have few values.
#[inline(always)]
pub(crate) fn pass_value(
    kind: Kind,
    hint: Hint,
    bytes: &[u8],
    before: Progress,
    out: &mut [u8],
) -> Option<Progress>
    requires read { before.read ≤ length bytes.now }
    requires written { before.written ≤ length out.old }
    ensures { (t : Map) → PassesOne result t kind hint bytes.now before out.old out.new }
{
    match kind {
        Kind::Uint(size) => pass_uint(size, hint, bytes, before, out),
        Kind::Int(size) => pass_int(size, hint, bytes, before, out),
        Kind::Bool => pass_bool(bytes, before, out),
        Kind::Char => pass_char(hint, bytes, before, out),
        Kind::Str => pass_str(hint, bytes, before, out),
        Kind::Bytes => pass_bytes(hint, bytes, before, out),
        Kind::ByteArray(count) => pass_array(count, hint, bytes, before, out),
        Kind::Float(size) => read_at_once(pass_float(size, bytes, before, out)),
        Kind::Debug => read_at_once(pass_shown(bytes, before, out)),
        Kind::Display => read_at_once(pass_shown(bytes, before, out)),
        _ => None,
    }
}
