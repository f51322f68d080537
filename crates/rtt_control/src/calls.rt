//! A control block found, read and written, and the bytes that wait in a buffer.
ghost use Rattle.std.specs.Prelude.{◌≡◌, ◌+◌, ◌*◌, ◌-◌, ◌<◌, ◌≤◌, ◌^◌, ◌%◌, ◌++◌, length, Ok, Err, IfOk, OnOk, OnErr, IfErr, All};
ghost use Rattle.rtt_control.specs.Layout.{IsWords, block_bytes, block_len, block_of, descriptors_at, round, waiting, with_bytes};
ghost use Rattle.rtt_control.specs.Checks.{HasBlock, HasId, HasSpace, IsFirstRefusal, IsRefusal, Passes, read_subject, unread_subject, write_subject};
ghost use Rattle.rtt_control.specs.Ids.{IsFindFault, IsOnly};
ghost use Rattle.rtt_control.specs.Control.{IsAnswer, block_at, found, unread_of, written};

use crate::block::{Block, Descriptor, Descriptors};
use crate::bytes::{ID, has_id, put, put_descriptors, put_words, read_descriptor};
use crate::checks::{cause, check_all, has_space};
use crate::fault::{Cause, ControlFault};
use crate::up::checked_counts;
use dl_io::{Bytes, Memory};
use std::alloc::Global;

/// The place of the only ID in an image of fewer than 4,294,967,296 bytes, as a host looks for the
/// control block of SEGGER RTT in a target's memory.
///
/// It refuses with `NoId` at 0 exactly where no ID stands in the image, and with `TwoIds` at the
/// second's place exactly where more than one does. An ID that the image's end cuts is none. Takes no
/// memory.
pub fn find(image: &[u8]) -> Result<u32, ControlFault>
    requires { length image.now < 2 ^ 32 }
    ensures only { IfOk result (IsOnly (HasId image.now)) }
    ensures refused { IfErr result (IsFindFault image.now) }
{
    find_id(image)
}

// Looks at each place for the ID, up to a second one.
fn find_id(image: &[u8]) -> Result<u32, ControlFault>
    requires { length image.now < 2 ^ 32 }
    ensures { result ≡ found image.now }
{
    let mut first = None;
    let mut at = 0;
    let mut rest = image;
    while let [_, more @ ..] = rest {
        if has_id(rest) {
            if first.is_some() {
                return Err(Cause::TwoIds.at(at));
            }
            first = Some(at);
        }
        rest = more;
        at += 1;
    }
    match first {
        Some(place) => Ok(place),
        None => Err(Cause::NoId.at(0)),
    }
}

/// The control block at the place `at` of an image of fewer than 4,294,967,296 bytes, whose first byte
/// has the address `base`: `SEGGER_RTT_CB` of SEGGER RTT.
///
/// It refuses by the first check that doesn't hold: `NoId` at `at` where the ID doesn't stand there,
/// `Bounds` at `at` where the block passes the image's end, then of each descriptor in order, with its
/// number, `Bounds`, `Offset` and `Flags`.
pub fn read(alloc: Global, image: &[u8], base: u32, at: u32) -> Result<Block, ControlFault>
    requires { length image.now < 2 ^ 32 }
    ensures block { IfOk result (λ block. block ≡ block_of image.now at) }
    ensures passes { OnOk result (Passes (HasId image.now at) (HasBlock image.now at) (read_subject image.now base at)) }
    ensures refused { IfErr result (IsRefusal (HasId image.now at) (HasBlock image.now at) (read_subject image.now base at) at) }

    // The same as a function of the image, for a caller that knows what this function gives.
    ensures answer { IfOk result (λ block. block_at image.now base at ≡ Ok block) }
    ensures fault { IfErr result (IsAnswer (block_at image.now base at)) }
{
    read_block(alloc, image, base, at)
}

fn read_block(alloc: Global, image: &[u8], base: u32, at: u32) -> Result<Block, ControlFault>
    requires { length image.now < 2 ^ 32 }
    ensures answer { IfOk result (λ block. block_at image.now base at ≡ Ok block) }
    ensures fault { IfErr result (IsAnswer (block_at image.now base at)) }
{
    let place = at as usize + 24;
    let counts = checked_counts(image, base, at)?;
    let up = read_descriptors(alloc, image, place, counts.ups)?;
    let down = read_descriptors(alloc, image, place + 24 * counts.ups, counts.downs)?;
    Ok(Block { up, down })
}

fn read_descriptors(
    alloc: Global,
    image: &[u8],
    at: usize,
    count: usize,
) -> Result<Descriptors, Memory>
    requires { at + 24 * count ≤ length image.now }
    ensures read { IfOk result (λ list. list ≡ descriptors_at image.now at count) }
    ensures count { IfOk result (λ list. length list ≡ count) }
{
    let mut list = Descriptors::new(alloc);
    for i in 0..count {
        list.push(read_descriptor(image, at + 24 * i))?;
    }
    Ok(list)
}

/// Puts the block at the place `at` of an image of fewer than 4,294,967,296 bytes, whose first byte has
/// the address `base`: `SEGGER_RTT_CB` of SEGGER RTT. Every byte outside the block stays as it was.
///
/// It refuses by the first check that doesn't hold, and leaves the image then: `Bounds` at `at` where
/// the block passes the image's end, then of each descriptor in order, with its number, `Bounds`,
/// `Offset` and `Flags`. Takes no memory.
pub fn write(block: &Block, image: &mut [u8], base: u32, at: u32) -> Result<(), ControlFault>
    requires { length image.old < 2 ^ 32 }
    ensures written { OnOk result (image.new ≡ with_bytes image.old at (block_bytes block.now.up block.now.down)) }
    ensures passes { OnOk result (Passes (Unit {0}) (HasSpace image.old at block.now) (write_subject image.old base block.now)) }
    ensures refused { IfErr result (IsFirstRefusal (Unit {0}) (HasSpace image.old at block.now) (write_subject image.old base block.now) at) }
    ensures same { OnErr result (image.new ≡ image.old) }

    // What was written is read there.
    ensures back { OnOk result (block_at image.new base at ≡ Ok block.now) }
{
    write_block(block, image, base, at)
}

fn write_block(block: &Block, image: &mut [u8], base: u32, at: u32) -> Result<(), ControlFault>
    requires { length image.old < 2 ^ 32 }
    ensures answer { OnOk result (written block.now image.old base at ≡ Ok image.new) }
    ensures fault { IfErr result (λ fault. written block.now image.old base at ≡ Err fault) }
    ensures same { OnErr result (image.new ≡ image.old) }
    ensures back { OnOk result (block_at image.new base at ≡ Ok block.now) }
{
    let place = at as usize;
    let up = block.up.as_slice();
    let down = block.down.as_slice();
    if !has_space(image.len(), place, up.len(), down.len()) {
        return Err(Cause::Bounds.at(at));
    }
    match check_all(image.len(), base, up, down) {
        Some(fault) => Err(fault),
        None => {
            put_block(image, place, up, down);
            Ok(())
        }
    }
}

fn put_block(image: &mut [u8], at: usize, up: &[Descriptor], down: &[Descriptor])
    requires fits { at + block_len (length up.now) (length down.now) ≤ length image.old }
    requires size { length image.old < 2 ^ 32 }
    ensures bytes { image.new ≡ with_bytes image.old at (block_bytes up.now down.now) }
    ensures words { All IsWords up.now × All IsWords down.now }
{
    put(image, at, &ID);
    put_words(image, at + 16, &[up.len() as u32, down.len() as u32]);
    put_descriptors(image, at + 24, up);
    put_descriptors(image, at + 24 + 24 * up.len(), down);
}

/// The bytes that wait in a buffer of an image of fewer than 4,294,967,296 bytes, whose first byte has
/// the address `base`: in SEGGER RTT those from RdOff up to WrOff, round the buffer's end where RdOff
/// is the greater. None wait in a buffer of the size 0.
///
/// It refuses by the first check of the descriptor that doesn't hold, with the number 0: `Bounds`,
/// `Offset` or `Flags`.
pub fn unread(
    alloc: Global,
    image: &[u8],
    base: u32,
    desc: &Descriptor,
) -> Result<Bytes, ControlFault>
    requires { length image.now < 2 ^ 32 }
    ensures waiting { IfOk result (λ bytes. bytes.items ≡ waiting image.now base desc.now) }
    ensures passes { OnOk result (Passes (Unit {0}) (Unit {0}) (unread_subject image.now base desc.now)) }
    ensures refused { IfErr result (IsRefusal (Unit {0}) (Unit {0}) (unread_subject image.now base desc.now) 0) }
{
    unread_bytes(alloc, image, base, desc)
}

fn unread_bytes(
    alloc: Global,
    image: &[u8],
    base: u32,
    desc: &Descriptor,
) -> Result<Bytes, ControlFault>
    requires { length image.now < 2 ^ 32 }
    ensures waiting { IfOk result (λ bytes. unread_of image.now base desc.now ≡ Ok bytes.items) }
    ensures refused { IfErr result (IsAnswer (unread_of image.now base desc.now)) }
{
    if let Some(cause) = cause(image.len(), base, desc) {
        return Err(cause.at(0));
    }
    let mut bytes = Bytes::new(alloc);
    if desc.size == 0 {
        return Ok(bytes);
    }
    let start = (desc.start - base) as usize;
    let buffer = &image[start..start + desc.size as usize];
    append_round(&mut bytes, buffer, desc.rd as usize, desc.wr as usize)?;
    Ok(bytes)
}

// Appends the bytes of a buffer from one place up to another, round the end.
fn append_round(out: &mut Bytes, buffer: &[u8], from: usize, to: usize) -> Result<(), Memory>
    requires places { (from < length buffer.now) × (to < length buffer.now) }
    requires size { length buffer.now < 2 ^ 32 }
    ensures { OnOk result (out.new.items ≡ out.old.items ++ round buffer.now (length buffer.now) from ((to + length buffer.now - from) % length buffer.now)) }
{
    if from <= to {
        out.extend_from_slice(&buffer[from..to])?;
        Ok(())
    } else {
        out.extend_from_slice(&buffer[from..])?;
        out.extend_from_slice(&buffer[..to])?;
        Ok(())
    }
}
