//! Numbers at places in bytes.

ghost use Rattle.std.specs.Prelude.{◌≡◌, ◌≤◌, ◌<◌, ◌+◌, ◌^◌, length};
ghost use Rattle.byte_images.specs.Fields.{number};

use byteorder::{ByteOrder, LittleEndian};

/// The number in the two bytes at a place, the lowest byte first.
pub fn half_at(bytes: &[u8], at: usize) -> u64
    requires { at + 2 ≤ length bytes.now }
    ensures value { result ≡ number at 2 bytes.now }
    ensures bound { result < 2 ^ 16 }
{
    u64::from(LittleEndian::read_u16(&bytes[at..]))
}

/// The number in the four bytes at a place, the lowest byte first.
pub fn word_at(bytes: &[u8], at: usize) -> u64
    requires { at + 4 ≤ length bytes.now }
    ensures value { result ≡ number at 4 bytes.now }
    ensures bound { result < 2 ^ 32 }
{
    u64::from(LittleEndian::read_u32(&bytes[at..]))
}

/// The number in the eight bytes at a place, the lowest byte first.
pub fn long_at(bytes: &[u8], at: usize) -> u64
    requires { at + 8 ≤ length bytes.now }
    ensures { result ≡ number at 8 bytes.now }
{
    LittleEndian::read_u64(&bytes[at..])
}
