//! Values read at a place of a message.

ghost use Rattle.std.specs.Prelude.{◌≡◌, ◌≤◌, ◌<◌, ◌+◌, ◌^◌, ◌∷◌, ◌++◌, [], length, IfSome};
ghost use Rattle.byteorder.specs.Endian.{little_bytes};
ghost use Rattle.defmt_encode.specs.Carry.{flag_byte, size_bytes, text_end};
ghost use Rattle.defmt_grammar.specs.Sizes.{float_bytes};
ghost use Rattle.defmt_plan.specs.Carried.{Carried};
ghost use Rattle.std.specs.Char.{IsScalar};
ghost use Rattle.std.specs.List.{AllByRecursion};
ghost use Rattle.std.specs.Str.{IsUtf8};

use byteorder::{ByteOrder, LittleEndian};
use defmt_grammar::{FloatSize, IntSize};
use memchr::memchr;
use std::str;

// The byte behind a text of Debug or Display, which no UTF-8 has.
const TEXT_END: u8 = 0xff;

// The number in the bytes behind a place, of which there are 1, 2, 4 or 8.
#[inline(always)]
pub(crate) fn take_uint(bytes: &[u8], at: usize, width: usize) -> Option<u64>
    requires within { at ≤ length bytes.now }
    ensures carried { IfSome result (λ n. Carried bytes.now at (at + width)
        (little_bytes width n)) }
    ensures small { IfSome result (λ n. n < 256 ^ width) }
{
    if bytes.len() - at < width {
        return None;
    }
    let part = &bytes[at..];
    match width {
        1 => Some(u64::from(part[0])),
        2 => Some(u64::from(LittleEndian::read_u16(part))),
        4 => Some(u64::from(LittleEndian::read_u32(part))),
        8 => Some(LittleEndian::read_u64(part)),
        _ => None,
    }
}

// The number of a size of up to 64 bits in the bytes behind a place.
#[inline(always)]
pub(crate) fn take_sized(bytes: &[u8], at: usize, size: IntSize) -> Option<u64>
    requires within { at ≤ length bytes.now }
    ensures carried { IfSome result (λ n. Carried bytes.now at (at + size_bytes size)
        (little_bytes (size_bytes size) n)) }
    ensures small { IfSome result (λ n. n < 256 ^ size_bytes size) }
{
    match size {
        IntSize::W8 => take_uint(bytes, at, 1),
        IntSize::W16 => take_uint(bytes, at, 2),
        IntSize::W32 | IntSize::Native => take_uint(bytes, at, 4),
        IntSize::W64 => take_uint(bytes, at, 8),
        IntSize::W128 => None,
    }
}

// The bits of a float of a size behind a place.
pub(crate) fn take_float(bytes: &[u8], at: usize, size: FloatSize) -> Option<u64>
    requires within { at ≤ length bytes.now }
    ensures carried { IfSome result (λ n. Carried bytes.now at (at + float_bytes size)
        (little_bytes (float_bytes size) n)) }
    ensures small { IfSome result (λ n. n < 256 ^ float_bytes size) }
{
    match size {
        FloatSize::W32 => take_uint(bytes, at, 4),
        FloatSize::W64 => take_uint(bytes, at, 8),
    }
}

// The truth value in the byte behind a place.
pub(crate) fn take_bool(bytes: &[u8], at: usize) -> Option<bool>
    requires within { at ≤ length bytes.now }
    ensures { IfSome result (λ b. Carried bytes.now at (at + 1) (flag_byte b ∷ [])) }
{
    if at == bytes.len() {
        return None;
    }
    match bytes[at] {
        0 => Some(false),
        1 => Some(true),
        _ => None,
    }
}

// The text behind a place, in front of which its length stands.
pub(crate) fn take_str(bytes: &[u8], at: usize) -> Option<&str>
    requires within { at ≤ length bytes.now }
    ensures carried { IfSome result (λ s. Carried bytes.now at (at + 4 + length s.now)
        (little_bytes 4 (length s.now) ++ s.now)) }
    ensures text { IfSome result (λ s. IsUtf8 s.now) }
    ensures few { IfSome result (λ s. length s.now < 2 ^ 32) }
{
    let count = take_uint(bytes, at, 4)? as usize;
    let start = at + 4;
    if bytes.len() - start < count {
        return None;
    }
    match str::from_utf8(&bytes[start..start + count]) {
        Ok(text) => Some(text),
        Err(_) => None,
    }
}

// The text behind a place, up to the end that stands behind one of Debug or Display.
pub(crate) fn take_shown(bytes: &[u8], at: usize) -> Option<&str>
    requires within { at ≤ length bytes.now }
    ensures carried { IfSome result (λ s. Carried bytes.now at (at + length s.now + 1)
        (s.now ++ text_end ∷ [])) }
    ensures text { IfSome result (λ s. IsUtf8 s.now) }
{
    let rest = &bytes[at..];
    let count = memchr(TEXT_END, rest)?;
    match str::from_utf8(&rest[..count]) {
        Ok(text) => Some(text),
        Err(_) => None,
    }
}

// The character behind a place.
pub(crate) fn take_char(bytes: &[u8], at: usize) -> Option<char>
    requires within { at ≤ length bytes.now }
    ensures carried { IfSome result (λ c. Carried bytes.now at (at + 4) (little_bytes 4 c)) }
    ensures scalar { IfSome result (λ c. IsScalar c) }
{
    let number = take_uint(bytes, at, 4)? as u32;
    char::from_u32(number)
}

// So many bytes behind a place.
pub(crate) fn take_chunk(bytes: &[u8], at: usize, count: usize) -> Option<&[u8]>
    requires within { at ≤ length bytes.now }
    ensures carried { IfSome result (λ s. Carried bytes.now at (at + count) s.now) }
    ensures size { IfSome result (λ s. length s.now ≡ count) }
    ensures small { IfSome result (λ s. AllByRecursion (λ b. b < 256) s.now) }
{
    if bytes.len() - at < count {
        return None;
    }
    Some(&bytes[at..at + count])
}
