//! The checks of descriptors.
ghost use Rattle.std.specs.Prelude.{◌≡◌, ◌+◌, ◌*◌, ◌<◌, ◌≤◌, ◌++◌, ◌↔◌, ◌^◌, length, IsNone, IsTrue};
ghost use Rattle.rtt_control.specs.Layout.{block_len, descriptors_at};
ghost use Rattle.rtt_control.specs.Checks.{HasOffsets, LiesIn};
ghost use Rattle.rtt_control.specs.Control.{has_offsets as offsets, lies_in as lies, has_mode as mode, cause_of, first_refusal};

use crate::block::Descriptor;
use crate::bytes::read_descriptor;
use crate::fault::{Cause, ControlFault};

fn lies_in(size: usize, base: u32, d: &Descriptor) -> bool
    ensures { result ≡ lies size base d.now }
{
    d.size == 0 || (base <= d.start && u64::from(d.start - base) + u64::from(d.size) <= size as u64)
}

fn has_offsets(d: &Descriptor) -> bool
    ensures { result ≡ offsets d.now }
{
    if d.size == 0 {
        d.wr == 0 && d.rd == 0
    } else {
        d.wr < d.size && d.rd < d.size
    }
}

fn has_mode(d: &Descriptor) -> bool
    ensures { result ≡ mode d.now }
{
    d.flags % 4 < 3
}

// The first cause of one descriptor.
#[tactic(auto, unfolding(crate::specs::Control::cause_of))]
pub(crate) fn cause(size: usize, base: u32, d: &Descriptor) -> Option<Cause>
    ensures first { result ≡ cause_of size base d.now }
    ensures inside { IsNone result → LiesIn size base d.now }
    ensures places { IsNone result → HasOffsets d.now }
{
    if !lies_in(size, base, d) {
        Some(Cause::Bounds)
    } else if !has_offsets(d) {
        Some(Cause::Offset)
    } else if !has_mode(d) {
        Some(Cause::Flags)
    } else {
        None
    }
}

// The first refusal of some descriptors, of which the first has this number.
fn check(size: usize, base: u32, list: &[Descriptor], number: u32) -> Option<ControlFault>
    requires { number + length list.now < 2 ^ 32 }
    ensures { result ≡ first_refusal size base number list.now }
{
    let mut rest = list;
    let mut number = number;
    while let [first, more @ ..] = rest {
        if let Some(cause) = cause(size, base, first) {
            return Some(cause.at(number));
        }
        rest = more;
        number += 1;
    }
    None
}

// The first refusal of a block's descriptors, up-descriptors first.
pub(crate) fn check_all(
    size: usize,
    base: u32,
    up: &[Descriptor],
    down: &[Descriptor],
) -> Option<ControlFault>
    requires { length up.now + length down.now < 2 ^ 32 }
    ensures { result ≡ first_refusal size base 0 (up.now ++ down.now) }
{
    match check(size, base, up, 0) {
        Some(fault) => Some(fault),
        None => check(size, base, down, up.len() as u32),
    }
}

// The first refusal of so many descriptors that stand one behind another in an image.
pub(crate) fn check_stored(image: &[u8], base: u32, at: usize, count: usize) -> Option<ControlFault>
    requires short { length image.now < 2 ^ 32 }
    requires fits { at + 24 * count ≤ length image.now }
    ensures { result ≡ first_refusal (length image.now) base 0 (descriptors_at image.now at count) }
{
    for i in 0..count {
        let descriptor = read_descriptor(image, at + 24 * i);
        if let Some(cause) = cause(image.len(), base, &descriptor) {
            return Some(cause.at(i as u32));
        }
    }
    None
}

// Whether a block of so many descriptors fits at the place.
pub(crate) fn has_space(size: usize, at: usize, ups: usize, downs: usize) -> bool
    requires place { at < 2 ^ 32 }
    requires size { size < 2 ^ 32 }
    ensures { IsTrue result ↔ (at + block_len ups downs ≤ size) }
{
    ups <= size && downs <= size && at + 24 + 24 * (ups + downs) <= size
}
