//! Numbers and parts of an image.
ghost use Rattle.std.specs.Prelude.{◌≡◌, ◌+◌, ◌*◌, ◌^◌, ◌<◌, ◌≤◌, length, All};
ghost use Rattle.std.specs.List.{flat_map};
ghost use Rattle.rtt_control.specs.Layout.{IsWords, descriptor_at, descriptor_bytes, starts_with_id, with_bytes, word_bytes};

use crate::block::Descriptor;
use byte_images::word_at;
use byteorder::{ByteOrder, LittleEndian};

/// The 16 bytes at the head of a control block, `acID` of SEGGER RTT: `SEGGER RTT` and six zeros.
pub const ID: [u8; 16] = *b"SEGGER RTT\0\0\0\0\0\0";

// Whether the bytes begin with the ID.
#[tactic(auto, unfolding(crate::specs::Layout::starts_with_id))]
pub(crate) fn has_id(image: &[u8]) -> bool
    ensures { result ≡ starts_with_id image.now }
{
    image.starts_with(&ID)
}

// The descriptor at a place.
pub(crate) fn read_descriptor(image: &[u8], at: usize) -> Descriptor
    requires { at + 24 ≤ length image.now }
    ensures { result ≡ descriptor_at image.now at }
{
    Descriptor {
        name: word_at(image, at) as u32,
        start: word_at(image, at + 4) as u32,
        size: word_at(image, at + 8) as u32,
        wr: word_at(image, at + 12) as u32,
        rd: word_at(image, at + 16) as u32,
        flags: word_at(image, at + 20) as u32,
    }
}

/// Puts bytes at a place of the image. Takes no memory.
pub fn put(image: &mut [u8], at: usize, bytes: &[u8])
    requires { at + length bytes.now ≤ length image.old }
    ensures { image.new ≡ with_bytes image.old at bytes.now }
{
    image[at..at + bytes.len()].copy_from_slice(bytes);
}

/// Puts numbers at a place of the image, four bytes each, the lowest byte first. Takes no memory.
pub fn put_words(image: &mut [u8], at: usize, words: &[u32])
    requires { at + 4 * length words.now ≤ length image.old }
    ensures { image.new ≡ with_bytes image.old at (flat_map word_bytes words.now) }
{
    put_numbers(image, at, words);
}

fn put_numbers(image: &mut [u8], at: usize, words: &[u32])
    requires { at + 4 * length words.now ≤ length image.old }
    ensures bytes { image.new ≡ with_bytes image.old at (flat_map word_bytes words.now) }
    ensures fit { All (λ n. n < 2 ^ 32) words.now }
{
    let mut place = at;
    for n in words {
        let mut bytes = [0; 4];
        LittleEndian::write_u32(&mut bytes, *n);
        put(image, place, &bytes);
        place += 4;
    }
}

/// Puts the 24 bytes of a descriptor at a place of the image. Takes no memory.
pub fn put_descriptor(image: &mut [u8], at: usize, d: &Descriptor)
    requires { at + 24 ≤ length image.old }
    ensures { image.new ≡ with_bytes image.old at (descriptor_bytes d.now) }
{
    put_fields(image, at, d);
}

fn put_fields(image: &mut [u8], at: usize, d: &Descriptor)
    requires { at + 24 ≤ length image.old }
    ensures bytes { image.new ≡ with_bytes image.old at (descriptor_bytes d.now) }
    ensures words { IsWords d.now }
{
    put_numbers(image, at, &[d.name, d.start, d.size, d.wr, d.rd, d.flags]);
}

// Puts descriptors at a place.
pub(crate) fn put_descriptors(image: &mut [u8], at: usize, list: &[Descriptor])
    requires { at + 24 * length list.now ≤ length image.old }
    ensures bytes { image.new ≡ with_bytes image.old at (flat_map descriptor_bytes list.now) }
    ensures words { All IsWords list.now }
{
    let mut place = at;
    for d in list {
        put_fields(image, place, d);
        place += 24;
    }
}
