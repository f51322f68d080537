//! Short texts, written without a call: their first bytes and their last, which may overlap.

ghost use Rattle.std.specs.Prelude.{◌≤◌, ◌+◌, ◌*◌, length};
ghost use Rattle.defmt_hints.specs.Written.{Writes, Written};

use defmt_hints::put_text;
use std::simd::prelude::*;

// Writes the first bytes and the last of a text, so many of each.
#[inline(always)]
fn write_ends(out: &mut [u8], at: usize, text: &[u8], count: usize)
    requires within { at + length text.now ≤ length out.old }
    requires count { (count ≤ length text.now) × (length text.now ≤ 2 * count) }
    ensures { Written out.old at out.new (at + length text.now) text.now }
{
    let size = text.len();
    let end = at + size;
    out[at..at + count].copy_from_slice(&text[..count]);
    out[end - count..end].copy_from_slice(&text[size - count..]);
}

// Writes the first eight bytes and the last eight of a text.
#[inline(always)]
fn write_eights(out: &mut [u8], at: usize, text: &[u8])
    requires within { at + length text.now ≤ length out.old }
    requires count { (8 ≤ length text.now) × (length text.now ≤ 16) }
    ensures { Written out.old at out.new (at + length text.now) text.now }
{
    let rest = text.len() - 8;
    let first = u8x8::from_slice(text);
    let last = u8x8::from_slice(&text[rest..]);
    first.copy_to_slice(&mut out[at..]);
    last.copy_to_slice(&mut out[at + rest..]);
}

// The first four and the last four.
#[inline(always)]
fn write_fours(out: &mut [u8], at: usize, text: &[u8])
    requires within { at + length text.now ≤ length out.old }
    requires count { (4 ≤ length text.now) × (length text.now ≤ 8) }
    ensures { Written out.old at out.new (at + length text.now) text.now }
{
    let rest = text.len() - 4;
    let first = u8x4::from_slice(text);
    let last = u8x4::from_slice(&text[rest..]);
    first.copy_to_slice(&mut out[at..]);
    last.copy_to_slice(&mut out[at + rest..]);
}

// Writes these bytes. `None` exactly where they don't fit.
#[inline(always)]
pub(crate) fn put_short(out: &mut [u8], at: usize, text: &[u8]) -> Option<usize>
    requires { at ≤ length out.old }
    ensures { Writes result out.old at out.new text.now }
{
    let size = text.len();
    if size == 0 || size > 16 {
        return put_text(out, at, text);
    }
    if out.len() - at < size {
        return None;
    }
    if size >= 8 {
        write_eights(out, at, text);
    } else if size >= 4 {
        write_fours(out, at, text);
    } else if size >= 2 {
        write_ends(out, at, text, 2);
    } else {
        write_ends(out, at, text, 1);
    }
    Some(at + size)
}
