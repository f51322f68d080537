//! A piece read as a code, from its end.
ghost use Rattle.std.specs.Prelude.{◌≡◌, ◌≢◌, ◌+◌, ◌*◌, ◌-◌, ◌<◌, ◌≤◌, ℕ, length, take, drop, All, IfOk, IsErr, MatchOption, MatchBool, slice_index, ◌++◌, ◌∷◌, []};
ghost use Rattle.rzcobs_core.specs.Blocks.{Blocks, IsNoCode, zero_bits, nonzero};
ghost use Rattle.rzcobs_core.specs.Reading.{clear_bits, spread, ReadsRun, ReadsLast, EndsInNoBlock};

use crate::spreads::SPREADS;
use memchr::memchr;
use std::simd::prelude::*;

// How many bytes are read at once.
const LANES: usize = 16;

/// No sequence of blocks is the piece.
#[derive(Clone, Copy, Debug)]
pub struct Malformed;

/// Reads a piece as a code, from its end backwards (rzCOBS, decoding), writes what it stands for
/// to the front of the buffer, and answers how many bytes that is.
///
/// The buffer has at least seven times as many bytes as the piece: 458,752 are enough for each
/// piece of at most 65,536 bytes. `Malformed` comes exactly where no sequence of blocks is the
/// piece. The buffer may hold anything then, and anything behind the bytes that were written.
/// Takes no memory.
pub fn decode(piece: &[u8], out: &mut [u8]) -> Result<usize, Malformed>
    requires { 7 * length piece.now ≤ length out.old }
    ensures found { IfOk result
        (λ count. (count ≤ length out.new) × Blocks piece.now (take count out.new)) }
    ensures malformed { IsErr result → IsNoCode piece.now }
{
    if has_zero(piece) {
        return Err(Malformed);
    }
    let at = decode_zeroless_to_end(piece, out)?;
    move_down(out, at);
    Ok(out.len() - at)
}

/// Reads a piece without a zero, as it stands between two zeros of a stream: what it stands for is written to the end of the
/// buffer, and where it begins is answered. The buffer may hold anything in front of that. Takes no memory.
#[inline(never)]
pub fn decode_zeroless_to_end(piece: &[u8], out: &mut [u8]) -> Result<usize, Malformed>
    requires room { 7 * length piece.now ≤ length out.old }
    requires none { All (λ b. b ≢ 0) piece.now }
    ensures found { IfOk result
        (λ begin. (begin ≤ length out.new) × Blocks piece.now (drop begin out.new)) }
    ensures malformed { IsErr result → IsNoCode piece.now }
{
    let mut rest = piece;
    let mut at = out.len();
    'blocks: while !rest.is_empty() {
        match read_last(rest, out, at) {
            None => return Err(Malformed),
            Some((front, begin)) => {
                rest = front;
                at = begin;
            }
        }
    }
    Ok(at)
}

/// The same of the first bytes of some, as many as are named, of which none is zero. So a piece is read where it stands in a
/// stream: by what stands behind it, whatever that is, more than one byte is read at once.
#[inline(never)]
pub fn decode_front_to_end(bytes: &[u8], size: usize, out: &mut [u8]) -> Result<usize, Malformed>
    requires size { size ≤ length bytes.now }
    requires room { 7 * size + 9 ≤ length out.old }
    requires none { All (λ b. b ≢ 0) (take size bytes.now) }
    ensures found { IfOk result
        (λ begin. (begin ≤ length out.new) × Blocks (take size bytes.now) (drop begin out.new)) }
    ensures malformed { IsErr result → IsNoCode (take size bytes.now) }
{
    if bytes.len() - size < LANES {
        return decode_zeroless_to_end(&bytes[..size], out);
    }
    let mut rest = size;
    let mut at = out.len();
    'blocks: while rest > 0 {
        match read_last_of(bytes, rest, out, at) {
            None => return Err(Malformed),
            Some((front, begin)) => {
                rest = front;
                at = begin;
            }
        }
    }
    Ok(at)
}

// Whether some byte is zero.
fn has_zero(bytes: &[u8]) -> bool
    ensures { MatchBool result
        ((k : ℕ) × (k < length bytes.now) × (slice_index bytes.now k ≡ 0))
        (All (λ b. b ≢ 0) bytes.now) }
{
    match memchr(0, bytes) {
        Some(_) => true,
        None => false,
    }
}

// Reads the last block, and puts what it stands for in front of the place. None where no block
// stands at the end.
fn read_last<'a>(piece: &'a [u8], out: &mut [u8], at: usize) -> Option<(&'a [u8], usize)>
    requires none { All (λ b. b ≢ 0) piece.now }
    requires within { at ≤ length out.old }
    requires room { 7 * length piece.now ≤ at }
    ensures { MatchOption result (EndsInNoBlock piece.now)
        (λ r. ReadsLast piece.now out.old at r.0.now out.new r.1) }
{
    let (code, before) = piece.split_last()?;
    let code = *code;
    if code < 128 {
        return read_few(before, code, out, at);
    }
    if code < 255 {
        return read_zero_after(before, code, out, at);
    }
    read_none_zero(before, out, at)
}

// The same of the first bytes of some, behind which there are others; what is answered first is how many bytes stand before the block.
#[inline(always)]
fn read_last_of(bytes: &[u8], rest: usize, out: &mut [u8], at: usize) -> Option<(usize, usize)>
    requires none { All (λ b. b ≢ 0) (take rest bytes.now) }
    requires some { 0 < rest }
    requires behind { rest + LANES ≤ length bytes.now }
    requires within { at ≤ length out.old }
    requires room { 7 * rest + 9 ≤ at }
    ensures { MatchOption result (EndsInNoBlock (take rest bytes.now))
        (λ r. ReadsLast (take rest bytes.now) out.old at (take r.0 bytes.now) out.new r.1) }
{
    let before = rest - 1;
    let code = bytes[before];
    if code >= 128 {
        return read_long_of(bytes, rest, out, at);
    }
    let stored = stored_of(code);
    if before < stored {
        return None;
    }
    let front = before - stored;
    put_spread(code, bytes, front, out, at);
    Some((front, at - 7))
}

// The same of a last block of any form. It stands apart, since most blocks are short.
#[inline(never)]
fn read_long_of(bytes: &[u8], rest: usize, out: &mut [u8], at: usize) -> Option<(usize, usize)>
    requires none { All (λ b. b ≢ 0) (take rest bytes.now) }
    requires size { rest ≤ length bytes.now }
    requires within { at ≤ length out.old }
    requires room { 7 * rest ≤ at }
    ensures { MatchOption result (EndsInNoBlock (take rest bytes.now))
        (λ r. ReadsLast (take rest bytes.now) out.old at (take r.0 bytes.now) out.new r.1) }
{
    let (front, begin) = read_last(&bytes[..rest], out, at)?;
    Some((front.len(), begin))
}

// Puts the seven bytes of a block of the first form in front of the place: sixteen bytes are read from the first stored one on, and
// each goes to where the code byte tells. In front of the seven stand nine zeros.
#[inline(always)]
fn put_spread(code: u8, bytes: &[u8], front: usize, out: &mut [u8], at: usize)
    requires small { code < 128 }
    requires lanes { front + LANES ≤ length bytes.now }
    requires place { LANES ≤ at }
    requires within { at ≤ length out.old }
    ensures put { drop (at - 7) out.new
        ≡ spread 7 code (take 16 (drop front bytes.now)) ++ drop at out.old }
    ensures long { length out.new ≡ length out.old }
{
    let places = u8x16::from_slice(&SPREADS[code as usize]);
    let all = u8x16::from_slice(&bytes[front..]).swizzle_dyn(places);
    all.copy_to_slice(&mut out[at - LANES..]);
}

// Reads a last block of the first form.
fn read_few<'a>(before: &'a [u8], code: u8, out: &mut [u8], at: usize) -> Option<(&'a [u8], usize)>
    requires none { All (λ b. b ≢ 0) before.now }
    requires small { code < 128 }
    requires within { at ≤ length out.old }
    requires room { 7 ≤ at }
    ensures { MatchOption result (EndsInNoBlock (before.now ++ code ∷ []))
        (λ r. ReadsLast (before.now ++ code ∷ []) out.old at r.0.now out.new r.1) }
{
    if code == 0 {
        return None;
    }
    let stored = stored_of(code);
    if before.len() < stored {
        return None;
    }
    let (front, kept) = before.split_at(before.len() - stored);
    put_seven(code, kept, &mut out[at - 7..at]);
    Some((front, at - 7))
}

// Reads a last block of the second form.
fn read_zero_after<'a>(
    before: &'a [u8],
    code: u8,
    out: &mut [u8],
    at: usize,
) -> Option<(&'a [u8], usize)>
    requires none { All (λ b. b ≢ 0) before.now }
    requires large { 128 ≤ code }
    requires small { code < 255 }
    requires within { at ≤ length out.old }
    requires room { 7 * length before.now + 7 ≤ at }
    ensures { MatchOption result (EndsInNoBlock (before.now ++ code ∷ []))
        (λ r. ReadsLast (before.now ++ code ∷ []) out.old at r.0.now out.new r.1) }
{
    let stored = usize::from(code) - 121;
    if before.len() < stored {
        return None;
    }
    out[at - 1] = 0;
    Some(read_run(before, stored, out, at - 1))
}

// Reads a last block of the third form.
fn read_none_zero<'a>(before: &'a [u8], out: &mut [u8], at: usize) -> Option<(&'a [u8], usize)>
    requires none { All (λ b. b ≢ 0) before.now }
    requires within { at ≤ length out.old }
    requires room { 7 * length before.now + 7 ≤ at }
    ensures { MatchOption result (EndsInNoBlock (before.now ++ 255 ∷ []))
        (λ r. ReadsLast (before.now ++ 255 ∷ []) out.old at r.0.now out.new r.1) }
{
    if before.len() < 134 {
        return None;
    }
    Some(read_run(before, 134, out, at))
}

// Puts the last bytes in front of the place. It stands apart, so that what reads short blocks has none of the copying's registers.
#[inline(never)]
fn read_run<'a>(before: &'a [u8], stored: usize, out: &mut [u8], at: usize) -> (&'a [u8], usize)
    requires stored { stored ≤ length before.now }
    requires within { at ≤ length out.old }
    requires room { stored ≤ at }
    ensures { ReadsRun before.now stored out.old at result.0.now out.new result.1 }
{
    let (front, kept) = before.split_at(before.len() - stored);
    out[at - stored..at].copy_from_slice(kept);
    (front, at - stored)
}

// How many bytes a block of the first form stores: one for each clear bit.
#[tactic(auto, using(crate::proofs::Backwards::clear_and_set))]
fn stored_of(code: u8) -> usize
    requires { code < 128 }
    ensures count { result ≡ clear_bits 7 code }
    ensures small { result ≤ 7 }
{
    7 - code.count_ones() as usize
}

// Puts seven bytes: a zero for each set bit, and the stored bytes, of which none is zero, in their order.
fn put_seven(code: u8, stored: &[u8], seven: &mut [u8])
    requires none { All (λ b. b ≢ 0) stored.now }
    requires small { code < 128 }
    requires count { length stored.now ≡ clear_bits 7 code }
    requires seven { length seven.old ≡ 7 }
    ensures mask { zero_bits seven.new ≡ code }
    ensures done { nonzero seven.new ≡ stored.now }
{
    let mut bits = code;
    let mut taken = 0usize;
    for i in 0..7usize {
        if bits % 2 == 1 {
            seven[i] = 0;
        } else {
            seven[i] = stored[taken];
            taken += 1;
        }
        bits /= 2;
    }
}

// Moves what stands from the place `at` on to the front.
fn move_down(out: &mut [u8], at: usize)
    requires { at ≤ length out.old }
    ensures { take (length out.old - at) out.new ≡ drop at out.old }
{
    out.copy_within(at.., 0);
}
