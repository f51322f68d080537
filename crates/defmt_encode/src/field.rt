//! Fields of a message read from the front of bytes.
ghost use Rattle.std.specs.Prelude.{◌≡◌, ◌≤◌, ◌<◌, ◌^◌, length, IfOk};
ghost use Rattle.byteorder.specs.Endian.{little_number};
ghost use Rattle.defmt_grammar.specs.Sizes.{float_bytes};
ghost use Rattle.defmt_encode.specs.Read.{number_at, signed_at, chunk_at, ended_at, text_of, bytes_at, text_at, shown_text_at};
ghost use Rattle.defmt_encode.specs.Reads.{now_of, pair_now, chunks_now, ReadsChunk, ReadsBuffer};

use crate::cause::{Cause, Fault};
use crate::put::TEXT_END;
use byteorder::{ByteOrder, LittleEndian};
use defmt_grammar::{FloatSize, Text};
use dl_io::{Bytes, Memory};
use memchr::memchr;
use std::alloc::Global;
use std::str;

/// The first bytes, and those behind them.
pub fn chunk(bytes: &[u8], count: usize) -> Result<(&[u8], &[u8]), Cause>
    ensures { chunks_now result ≡ chunk_at count bytes.now }
{
    if count <= bytes.len() {
        Ok(bytes.split_at(count))
    } else {
        Err(Cause::Short)
    }
}

// The number in the first bytes.
#[inline(always)]
fn low_first(bytes: &[u8], width: usize) -> u128
    requires { (0 < width) × (width ≤ 16) × (width ≤ length bytes.now) }
    ensures { result ≡ little_number width bytes.now }
{
    match width {
        1 => u128::from(bytes[0]),
        2 => u128::from(LittleEndian::read_u16(bytes)),
        4 => u128::from(LittleEndian::read_u32(bytes)),
        8 => u128::from(LittleEndian::read_u64(bytes)),
        _ => LittleEndian::read_uint128(bytes, width),
    }
}

/// A number of so many bytes, and those behind it.
#[inline(always)]
pub fn number(bytes: &[u8], width: u8) -> Result<(u128, &[u8]), Cause>
    requires { width ≤ 16 }
    ensures value { pair_now result ≡ number_at width bytes.now }
    ensures small { IfOk result (λ r. r.0 < 256 ^ width) }
{
    let width = usize::from(width);
    if bytes.len() < width {
        return Err(Cause::Short);
    }
    let (_, rest) = bytes.split_at(width);
    if width == 0 {
        return Ok((0, rest));
    }
    Ok((low_first(bytes, width), rest))
}

/// A signed number of so many bytes, in two's complement.
pub fn signed(bytes: &[u8], width: u8) -> Result<(i128, &[u8]), Cause>
    requires { (0 < width) × (width ≤ 16) }
    ensures { pair_now result ≡ signed_at width bytes.now }
{
    let width = usize::from(width);
    if bytes.len() < width {
        return Err(Cause::Short);
    }
    let (_, rest) = bytes.split_at(width);
    Ok((LittleEndian::read_int128(bytes, width), rest))
}

pub fn index(bytes: &[u8]) -> Result<(u16, &[u8]), Cause>
    ensures { pair_now result ≡ number_at 2 bytes.now }
{
    if bytes.len() < 2 {
        return Err(Cause::Short);
    }
    let (_, rest) = bytes.split_at(2);
    Ok((LittleEndian::read_u16(bytes), rest))
}

pub fn word(bytes: &[u8]) -> Result<(u32, &[u8]), Cause>
    ensures { pair_now result ≡ number_at 4 bytes.now }
{
    if bytes.len() < 4 {
        return Err(Cause::Short);
    }
    let (_, rest) = bytes.split_at(4);
    Ok((LittleEndian::read_u32(bytes), rest))
}

fn double_word(bytes: &[u8]) -> Result<(u64, &[u8]), Cause>
    ensures { pair_now result ≡ number_at 8 bytes.now }
{
    if bytes.len() < 8 {
        return Err(Cause::Short);
    }
    let (_, rest) = bytes.split_at(8);
    Ok((LittleEndian::read_u64(bytes), rest))
}

/// The bits of a float.
pub fn float(bytes: &[u8], size: FloatSize) -> Result<(u64, &[u8]), Cause>
    ensures { pair_now result ≡ number_at (float_bytes size) bytes.now }
{
    match size {
        FloatSize::W32 => {
            let (bits, rest) = word(bytes)?;
            Ok((u64::from(bits), rest))
        }
        FloatSize::W64 => double_word(bytes),
    }
}

pub fn byte(bytes: &[u8]) -> Result<(u8, &[u8]), Cause>
    ensures { pair_now result ≡ number_at 1 bytes.now }
{
    if bytes.is_empty() {
        return Err(Cause::Short);
    }
    let (_, rest) = bytes.split_at(1);
    Ok((bytes[0], rest))
}

// Bytes behind their number.
fn counted(bytes: &[u8]) -> Result<(&[u8], &[u8]), Cause>
    ensures { chunks_now result ≡ bytes_at bytes.now }
{
    let (count, rest) = word(bytes)?;
    chunk(rest, count as usize)
}

// Bytes in front of the first end of a text.
fn ended(bytes: &[u8]) -> Result<(&[u8], &[u8]), Cause>
    ensures { chunks_now result ≡ ended_at bytes.now }
{
    match memchr(TEXT_END, bytes) {
        Some(end) => {
            let (front, _) = bytes.split_at(end);
            let (_, rest) = bytes.split_at(end + 1);
            Ok((front, rest))
        }
        None => Err(Cause::Short),
    }
}

// The text of bytes.
fn as_text(bytes: &[u8]) -> Result<&str, Cause>
    ensures { now_of result ≡ text_of bytes.now }
{
    match str::from_utf8(bytes) {
        Ok(text) => Ok(text),
        Err(_) => Err(Cause::BadText),
    }
}

fn text(bytes: &[u8]) -> Result<(&str, &[u8]), Cause>
    ensures { chunks_now result ≡ text_at bytes.now }
{
    let (front, rest) = counted(bytes)?;
    Ok((as_text(front)?, rest))
}

// A text of Debug or Display.
fn shown_text(bytes: &[u8]) -> Result<(&str, &[u8]), Cause>
    ensures { chunks_now result ≡ shown_text_at bytes.now }
{
    let (front, rest) = ended(bytes)?;
    Ok((as_text(front)?, rest))
}

fn copied(alloc: Global, text: &str) -> Result<Text, Memory>
    ensures { IfOk result (λ copy. copy ≡ text.now) }
{
    let mut copy = Text::new(alloc);
    match copy.push_str(text) {
        Ok(()) => Ok(copy),
        Err(_) => Err(Memory),
    }
}

pub fn read_text(alloc: Global, bytes: &[u8]) -> Result<(Text, &[u8]), Fault>
    ensures { ReadsChunk result (text_at bytes.now) }
{
    let (text, rest) = text(bytes)?;
    Ok((copied(alloc, text)?, rest))
}

pub fn read_shown_text(alloc: Global, bytes: &[u8]) -> Result<(Text, &[u8]), Fault>
    ensures { ReadsChunk result (shown_text_at bytes.now) }
{
    let (text, rest) = shown_text(bytes)?;
    Ok((copied(alloc, text)?, rest))
}

pub fn read_bytes(alloc: Global, bytes: &[u8]) -> Result<(Bytes, &[u8]), Fault>
    ensures { ReadsBuffer result (bytes_at bytes.now) }
{
    let (front, rest) = counted(bytes)?;
    Ok((Bytes::from_slice(alloc, front)?, rest))
}

pub fn read_array(alloc: Global, count: u16, bytes: &[u8]) -> Result<(Bytes, &[u8]), Fault>
    ensures { ReadsBuffer result (chunk_at count bytes.now) }
{
    let (front, rest) = chunk(bytes, usize::from(count))?;
    Ok((Bytes::from_slice(alloc, front)?, rest))
}
