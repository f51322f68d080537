//! Texts with the escapes of JSON are put into a buffer.
ghost use Rattle.std.specs.Prelude.{◌≡◌, ◌≤◌, ◌+◌, ◌*◌, length, take};
ghost use Rattle.defmt_forms.specs.Placed.{Placed};
ghost use Rattle.json.specs.Print.{escape, escape_byte};

use crate::pieces::put_bytes;
use crate::tame::digit;

/// Puts the front of a block with its escapes at a place, and answers where it ends.
pub(crate) fn put_escaped_front(text: &mut [u8], at: usize, block: &[u8; 32], count: usize) -> usize
    requires { (count ≤ 32) × (at + 192 ≤ length text.old) }
    ensures placed { Placed text.old at text.new result (escape (take count block.now)) }
    ensures few { result ≤ at + 192 }
{
    put_escapes(text, at, &block[..count])
}

// Puts a text with its escapes at a place, and answers where it ends.
fn put_escapes(text: &mut [u8], at: usize, from: &[u8]) -> usize
    requires { at + 6 * length from.now ≤ length text.old }
    ensures placed { Placed text.old at text.new result (escape from.now) }
    ensures few { result ≤ at + 6 * length from.now }
{
    let mut rest = from;
    let mut end = at;
    'bytes: while let Some((byte, behind)) = rest.split_first() {
        end = put_byte(text, end, *byte);
        rest = behind;
    }
    end
}

// Puts what stands for a byte in a string.
#[inline(always)]
fn put_byte(text: &mut [u8], at: usize, byte: u8) -> usize
    requires { at + 6 ≤ length text.old }
    ensures placed { Placed text.old at text.new result (escape_byte byte) }
    ensures few { result ≤ at + 6 }
{
    let (shown, count) = escape_of(byte);
    put_bytes(text, at, &shown, count)
}

// What stands for a byte in a string: so many bytes at the front.
#[tactic(auto, unfolding(json::specs::Print::escape_byte))]
fn escape_of(byte: u8) -> ([u8; 6], usize)
    ensures few { result.1 ≤ 6 }
    ensures shown { take result.1 result.0 ≡ escape_byte byte }
{
    match byte {
        b'"' | b'\\' => ([b'\\', byte, 0, 0, 0, 0], 2),
        8 => ([b'\\', b'b', 0, 0, 0, 0], 2),
        12 => ([b'\\', b'f', 0, 0, 0, 0], 2),
        b'\n' => ([b'\\', b'n', 0, 0, 0, 0], 2),
        b'\r' => ([b'\\', b'r', 0, 0, 0, 0], 2),
        b'\t' => ([b'\\', b't', 0, 0, 0, 0], 2),
        0..=31 => (
            [b'\\', b'u', b'0', b'0', digit(byte / 16), digit(byte % 16)],
            6,
        ),
        _ => ([byte, 0, 0, 0, 0, 0], 1),
    }
}
