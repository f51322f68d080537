//! The bytes of one up-buffer of a control block.

ghost use Rattle.std.specs.Prelude.{◌≡◌, ◌≤◌, ◌<◌, ◌^◌, length, None, IfOk, IfErr, OnOk};
ghost use Rattle.rtt_control.specs.Checks.{HasMode, HasOffsets, LiesIn};
ghost use Rattle.rtt_control.specs.Layout.{waiting};
ghost use Rattle.rtt_dump.specs.Answers.{channel_refusal};
ghost use Rattle.rtt_dump.specs.Dump.{buffer_bytes, channel_bytes, up_buffer, whole};
ghost use Rattle.rtt_dump.specs.Faults.{IsFault};

use crate::fault::{Cause, DumpFault};
use dl_io::{Bytes, Memory};
use rtt_control::{ControlFault, Descriptor, read_up, unread};
use std::alloc::Global;

// All bytes of a buffer, the oldest first.
fn whole_buffer(alloc: Global, image: &[u8], base: u32, d: &Descriptor) -> Result<Bytes, Memory>
    requires lies { LiesIn (length image.now) base d.now }
    requires offsets { HasOffsets d.now }
    ensures { IfOk result (λ bytes. bytes.items ≡ whole image.now base d.now) }
{
    let mut bytes = Bytes::new(alloc);
    if d.size == 0 {
        return Ok(bytes);
    }
    let start = (d.start - base) as usize;
    let buffer = &image[start..start + d.size as usize];
    let (newer, older) = buffer.split_at(d.wr as usize);
    bytes.extend_from_slice(older)?;
    bytes.extend_from_slice(newer)?;
    Ok(bytes)
}

// The bytes that wait in a buffer that passes its checks.
fn waiting_bytes(alloc: Global, image: &[u8], base: u32, d: &Descriptor) -> Result<Bytes, Memory>
    requires short { length image.now < 2 ^ 32 }
    requires lies { LiesIn (length image.now) base d.now }
    requires offsets { HasOffsets d.now }
    requires mode { HasMode d.now }
    ensures { IfOk result (λ bytes. bytes.items ≡ waiting image.now base d.now) }
{
    match unread(alloc, image, base, d) {
        Ok(bytes) => Ok(bytes),
        Err(ControlFault::Memory) => Err(Memory),
        Err(ControlFault::Refused { .. }) => unreachable!(),
    }
}

// The bytes that wait, or with `old` all.
fn asked_bytes(
    alloc: Global,
    image: &[u8],
    base: u32,
    d: &Descriptor,
    old: bool,
) -> Result<Bytes, Memory>
    requires short { length image.now < 2 ^ 32 }
    requires lies { LiesIn (length image.now) base d.now }
    requires offsets { HasOffsets d.now }
    requires mode { HasMode d.now }
    ensures { IfOk result (λ bytes. bytes.items ≡ buffer_bytes image.now base d.now old) }
{
    if old {
        whole_buffer(alloc, image, base, d)
    } else {
        waiting_bytes(alloc, image, base, d)
    }
}

// The up-descriptor `up` of the block at the place `at` of a segment, which passes its checks.
fn up_of(image: &[u8], base: u32, at: u32, up: u32) -> Result<Descriptor, DumpFault>
    requires { length image.now < 2 ^ 32 }
    ensures there { IfOk result (λ d. up_buffer image.now at up ≡ d) }
    ensures lies { IfOk result (LiesIn (length image.now) base) }
    ensures offsets { IfOk result HasOffsets }
    ensures mode { IfOk result HasMode }
    ensures passes { OnOk result
        (channel_refusal (record { base = base; bytes = image.now }) at up ≡ None) }
    ensures refused { IfErr result
        (IsFault (channel_refusal (record { base = base; bytes = image.now }) at up)) }
{
    let found = read_up(image, base, at, up)?;
    match found {
        Some(d) => Ok(d),
        None => Err(Cause::NoChannel.at(up)),
    }
}

/// The bytes of the up-buffer `up` of the control block at the place `at` of a segment: those that
/// wait, or with `old` all.
pub fn bytes_of(
    alloc: Global,
    image: &[u8],
    base: u32,
    at: u32,
    up: u32,
    old: bool,
) -> Result<Bytes, DumpFault>
    requires { length image.now < 2 ^ 32 }
    ensures bytes { IfOk result (λ bytes. bytes.items
        ≡ channel_bytes (record { base = base; bytes = image.now }) at up old) }
    ensures passes { OnOk result
        (channel_refusal (record { base = base; bytes = image.now }) at up ≡ None) }
    ensures refused { IfErr result
        (IsFault (channel_refusal (record { base = base; bytes = image.now }) at up)) }
    ensures short { IfOk result (λ bytes. length bytes.items ≤ length image.now) }
{
    let d = up_of(image, base, at, up)?;
    Ok(asked_bytes(alloc, image, base, &d, old)?)
}
