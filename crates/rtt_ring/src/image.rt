//! The memory image of a plain ring: the control block, with one up-descriptor and none down, and behind it the buffer.
ghost use Rattle.std.specs.Prelude.{◌≡◌, ◌≤◌, ◌<◌, ◌+◌, length, take, IfOk};
ghost use Rattle.rtt_control.specs.Layout.{descriptor_bytes, with_bytes};
ghost use Rattle.rtt_ring.specs.Image.{block_of, header, plain_descriptor, stored};

use rtt_control::{Descriptor, ID, put, put_descriptor, put_words};
use std::alloc::{AllocError, Global};

/// The target address of the image.
pub const IMAGE_BASE: u32 = 0x2000_0000;

/// Where the buffer begins.
pub const BUFFER: usize = 48;

/// An image with the block of an empty ring.
pub fn fresh_image(alloc: Global, size: u32) -> Result<Vec<u8>, AllocError>
    ensures wide { IfOk result (λ image. length image.items ≡ 48 + size) }
    ensures front { IfOk result (λ image. take 48 image.items ≡ block_of size 0 0) }
{
    let mut image = Vec::from_elem(alloc, 0, BUFFER + size as usize)?;
    put_header(&mut image);
    mark(&mut image, size, 0, 0);
    Ok(image)
}

fn put_header(image: &mut Vec<u8>)
    requires { 48 ≤ length image.old.items }
    ensures wide { length image.new.items ≡ length image.old.items }
    ensures front { take 24 image.new.items ≡ header }
{
    let bytes = image.as_mut_slice();
    put(bytes, 0, &ID);
    put_words(bytes, 16, &[1, 0]);
}

/// Writes the up-descriptor.
pub fn mark(image: &mut Vec<u8>, size: u32, wr: u32, rd: u32)
    requires { 48 ≤ length image.old.items }
    ensures { image.new.items ≡ with_bytes image.old.items 24 (descriptor_bytes (plain_descriptor size wr rd)) }
{
    let descriptor = Descriptor {
        name: 0,
        start: IMAGE_BASE + BUFFER as u32,
        size,
        wr,
        rd,
        flags: 0,
    };
    put_descriptor(image.as_mut_slice(), 24, &descriptor);
}

/// Stores bytes from a place of the buffer on, round its end.
pub fn store(image: &mut Vec<u8>, at: usize, bytes: &[u8])
    requires buffer { 48 + at < length image.old.items }
    requires fits { 48 + length bytes.now ≤ length image.old.items }
    ensures { image.new.items ≡ stored image.old.items at bytes.now }
{
    let memory = image.as_mut_slice();
    let first = bytes.len().min(memory.len() - BUFFER - at);
    put(memory, BUFFER + at, &bytes[..first]);
    put(memory, BUFFER, &bytes[first..]);
}
