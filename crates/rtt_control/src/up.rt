//! A block that is checked where it stands, and one of its up-descriptors.

ghost use Rattle.std.specs.Prelude.{◌≡◌, ◌+◌, ◌≤◌, ◌<◌, ◌^◌, length, drop, slice_get, Ok, Err, IfOk, OnOk, IfErr};
ghost use Rattle.rtt_control.specs.Layout.{block_len, block_of, downs_at, starts_with_id, ups_at};
ghost use Rattle.rtt_control.specs.Checks.{HasBlock, HasId, IsFirstRefusal, Passes, read_subject};
ghost use Rattle.rtt_control.specs.Control.{block_at};

use crate::block::Descriptor;
use crate::bytes::{has_id, read_descriptor};
use crate::checks::check_stored;
use crate::fault::{Cause, ControlFault};
use byte_images::word_at;

// How many up- and down-buffers a block has.
#[derive(Clone, Copy)]
pub(crate) struct Counts {
    pub ups: usize,
    pub downs: usize,
}

fn has_id_at(image: &[u8], at: usize) -> bool
    ensures { result ≡ starts_with_id (drop at image.now) }
{
    match image.get(at..) {
        Some(rest) => has_id(rest),
        None => has_id(&[]),
    }
}

// The counts of the block at a place, where it passes all checks. Takes no memory.
pub(crate) fn checked_counts(image: &[u8], base: u32, at: u32) -> Result<Counts, ControlFault>
    requires { length image.now < 2 ^ 32 }
    ensures ups { IfOk result (λ counts. counts.ups ≡ ups_at image.now at) }
    ensures downs { IfOk result (λ counts. counts.downs ≡ downs_at image.now at) }
    ensures lies { IfOk result (λ counts.
        at + block_len counts.ups counts.downs ≤ length image.now) }
    ensures answer { OnOk result (block_at image.now base at ≡ Ok (block_of image.now at)) }
    ensures fault { IfErr result (λ fault. block_at image.now base at ≡ Err fault) }
{
    let place = at as usize;
    if !has_id_at(image, place) {
        return Err(Cause::NoId.at(at));
    }
    if image.len() < place + 24 {
        return Err(Cause::Bounds.at(at));
    }
    let ups = word_at(image, place + 16) as usize;
    let downs = word_at(image, place + 20) as usize;
    if image.len() < place + (24 + 24 * (ups + downs)) {
        return Err(Cause::Bounds.at(at));
    }
    match check_stored(image, base, place + 24, ups + downs) {
        Some(fault) => Err(fault),
        None => Ok(Counts { ups, downs }),
    }
}

/// The up-descriptor number `up` of the control block at the place `at` of an image of fewer than
/// 4,294,967,296 bytes, whose first byte has the address `base`, and `None` where the block has no such
/// one. [`read`](crate::read) gives all descriptors.
///
/// It refuses as `read` does, by the first check of the block that doesn't hold. Takes no memory,
/// however many descriptors the block has.
pub fn read_up(
    image: &[u8],
    base: u32,
    at: u32,
    up: u32,
) -> Result<Option<Descriptor>, ControlFault>
    requires { length image.now < 2 ^ 32 }
    ensures descriptor { IfOk result (λ found. found ≡ slice_get (block_of image.now at).up up) }
    ensures passes { OnOk result (Passes (HasId image.now at) (HasBlock image.now at)
        (read_subject image.now base at)) }
    ensures refused { IfErr result (IsFirstRefusal (HasId image.now at) (HasBlock image.now at)
        (read_subject image.now base at) at) }

    // The same as a function of the image, for a caller that knows what this function gives.
    ensures answer { OnOk result (block_at image.now base at ≡ Ok (block_of image.now at)) }
    ensures fault { IfErr result (λ fault. block_at image.now base at ≡ Err fault) }
{
    find_up(image, base, at, up)
}

fn find_up(image: &[u8], base: u32, at: u32, up: u32) -> Result<Option<Descriptor>, ControlFault>
    requires { length image.now < 2 ^ 32 }
    ensures descriptor { IfOk result (λ found. found ≡ slice_get (block_of image.now at).up up) }
    ensures answer { OnOk result (block_at image.now base at ≡ Ok (block_of image.now at)) }
    ensures fault { IfErr result (λ fault. block_at image.now base at ≡ Err fault) }
{
    let counts = checked_counts(image, base, at)?;
    let number = up as usize;
    if counts.ups <= number {
        return Ok(None);
    }
    Ok(Some(read_descriptor(image, at as usize + 24 + 24 * number)))
}
