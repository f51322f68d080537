//! Bytes put into a buffer of which 2,000 are used.
ghost use Rattle.std.specs.Prelude.{◌≡◌, ◌≤◌, ◌∷◌, [], length, OnErr};
ghost use Rattle.byteorder.specs.Endian.{little_bytes};
ghost use Rattle.defmt_encode.specs.Out.{Puts};

use byteorder::{ByteOrder, LittleEndian};

/// The most bytes of a message.
pub const MESSAGE_LIMIT: usize = 2000;

/// The byte behind a text of Debug or Display.
pub const TEXT_END: u8 = 0xff;

/// A message has more than 2,000 bytes.
#[derive(Clone, Copy, Debug)]
pub struct Long;

/// Puts one byte behind the first `at`.
#[tactic(auto, using(crate::proofs::Chain::one_byte, crate::proofs::Chain::refused_whole))]
pub fn put(out: &mut [u8], at: usize, byte: u8) -> Result<usize, Long>
    requires { (2000 ≤ length out.old) × (at ≤ 2000) }
    ensures { Puts out.old out.new at result (byte ∷ []) }
{
    if at == MESSAGE_LIMIT {
        return Err(Long);
    }
    out[at] = byte;
    Ok(at + 1)
}

/// Puts bytes behind the first `at` of a message, and leaves what lies behind them as it was. The buffer has at least 2,000 bytes, of
/// which `at` are put. Answers how many are put then, or `Long` where these would be more than 2,000, with the buffer as before. Takes
/// no memory.
#[tactic(auto, using(crate::proofs::Chain::refused_whole))]
pub fn put_bytes(out: &mut [u8], at: usize, bytes: &[u8]) -> Result<usize, Long>
    requires { (2000 ≤ length out.old) × (at ≤ 2000) }
    ensures puts { Puts out.old out.new at result bytes.now }
    ensures kept { OnErr result (out.new ≡ out.old) }
{
    if bytes.len() > MESSAGE_LIMIT - at {
        return Err(Long);
    }
    let end = at + bytes.len();
    out[at..end].copy_from_slice(bytes);
    Ok(end)
}

// The same by a call, where their number isn't known.
#[inline(never)]
pub(crate) fn put_chunk(out: &mut [u8], at: usize, bytes: &[u8]) -> Result<usize, Long>
    requires { (2000 ≤ length out.old) × (at ≤ 2000) }
    ensures { Puts out.old out.new at result bytes.now }
{
    put_bytes(out, at, bytes)
}

// Writes the lowest bytes of a number of any width, the lowest first.
#[inline(never)]
fn write_each(bytes: &mut [u8], n: u128)
    ensures { bytes.new ≡ little_bytes (length bytes.old) n }
{
    let mut left = n;
    for byte in bytes.iter_mut() {
        *byte = (left % 256) as u8;
        left /= 256;
    }
}

// Writes the lowest bytes of a number, the lowest first. Those of most numbers are written at once.
#[inline(always)]
fn write_low_first(bytes: &mut [u8], n: u128)
    ensures { bytes.new ≡ little_bytes (length bytes.old) n }
{
    match bytes.len() {
        1 => bytes[0] = (n % 256) as u8,
        2 => LittleEndian::write_u16(bytes, (n % 65_536) as u16),
        4 => LittleEndian::write_u32(bytes, (n % 4_294_967_296) as u32),
        8 => LittleEndian::write_u64(bytes, (n % 18_446_744_073_709_551_616) as u64),
        _ => write_each(bytes, n),
    }
}

/// Puts the lowest `width` bytes of a number behind the first `at` of a message, the lowest first. The buffer has at least 2,000 bytes, of
/// which `at` are put. Answers how many are put then, or `Long` where these would be more than 2,000, with the buffer as before. Takes
/// no memory.
#[inline(always)]
#[tactic(auto, using(crate::proofs::Numbers::length_little, crate::proofs::Chain::refused_whole))]
pub fn put_number(out: &mut [u8], at: usize, n: u128, width: u8) -> Result<usize, Long>
    requires { (2000 ≤ length out.old) × (at ≤ 2000) }
    ensures puts { Puts out.old out.new at result (little_bytes width n) }
    ensures kept { OnErr result (out.new ≡ out.old) }
{
    let width = usize::from(width);
    if width > MESSAGE_LIMIT - at {
        return Err(Long);
    }
    let end = at + width;
    write_low_first(&mut out[at..end], n);
    Ok(end)
}
