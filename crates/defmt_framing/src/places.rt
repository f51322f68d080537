//! Where the zeros of bytes stand.
ghost use Rattle.std.specs.Prelude.{◌≡◌, ◌≢◌, ◌≤◌, ◌<◌, ◌==◌, not, length, take, replicate, slice_index, false};
ghost use Rattle.std.specs.List.{prefix_len};
ghost use Rattle.defmt_framing.specs.Cut.{has_zero};

use memchr::memchr;
use std::simd::prelude::*;

// How many bytes are looked at at once: most pieces are shorter than these, and nearly all than twice as many.
const LANES: usize = 16;

// How many bytes stand before the first zero of the first bytes, or how many these are.
#[inline(always)]
fn until_near_zero(bytes: &[u8]) -> usize
    requires { LANES ≤ length bytes.now }
    ensures { result ≡ prefix_len (λ b. not (b == 0)) (take LANES bytes.now) }
{
    let zeros = u8x16::from_slice(bytes)
        .simd_eq(u8x16::splat(0))
        .to_bitmask();
    if zeros == 0 {
        LANES
    } else {
        zeros.trailing_zeros() as usize
    }
}

// How many bytes stand before the first zero, wherever that is.
#[inline(never)]
fn until_any_zero(bytes: &[u8]) -> usize
    ensures within { result ≤ length bytes.now }
    ensures none { has_zero (take result bytes.now) ≡ false }
    ensures zero { result < length bytes.now → slice_index bytes.now result ≡ 0 }
{
    match memchr(0, bytes) {
        Some(place) => place,
        None => bytes.len(),
    }
}

// How many bytes stand before the first zero.
#[inline(always)]
pub(crate) fn until_zero(bytes: &[u8]) -> usize
    ensures within { result ≤ length bytes.now }
    ensures none { has_zero (take result bytes.now) ≡ false }
    ensures zero { result < length bytes.now → slice_index bytes.now result ≡ 0 }
{
    if bytes.len() < 2 * LANES {
        return until_any_zero(bytes);
    }
    let near = until_near_zero(bytes);
    if near < LANES {
        return near;
    }
    let (_, rest) = bytes.split_at(LANES);
    let more = until_near_zero(rest);
    if more < LANES {
        return LANES + more;
    }
    until_any_zero(bytes)
}

// How many zeros stand in front.
pub(crate) fn zeros_in_front(bytes: &[u8]) -> usize
    ensures within { result ≤ length bytes.now }
    ensures zeros { take result bytes.now ≡ replicate result 0 }
    ensures other { result < length bytes.now → slice_index bytes.now result ≢ 0 }
{
    for (i, b) in bytes.iter().enumerate() {
        if *b != 0 {
            return i;
        }
    }
    bytes.len()
}
