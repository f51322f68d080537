//! What a piece stands for.
ghost use Rattle.std.specs.Prelude.{◌≡◌, ◌≤◌, ◌+◌, ◌*◌, List, ℕ, Some, None, false, length, take, drop, option_map, IfSome};
ghost use Rattle.rzcobs_core.specs.Blocks.{Blocks, IsNoCode};
ghost use Rattle.defmt_framing.specs.Cut.{has_zero};
ghost use Rattle.defmt_framing.specs.Decoded.{decoded};

use rzcobs_core::{Malformed, decode, decode_front_to_end, decode_zeroless_to_end};

/// What a piece stands for as a function of it, and as a sequence of blocks, agree.
pub fn decoded_is()
    ensures found { (code bytes : List ℕ) → Blocks code bytes → decoded code ≡ Some bytes }
    ensures again { (code bytes : List ℕ) → decoded code ≡ Some bytes → Blocks code bytes }
    ensures none { (code : List ℕ) → IsNoCode code → decoded code ≡ None }
{}

/// Writes what the piece stands for as a code to the front of the buffer, and answers how many
/// bytes that is.
///
/// The buffer has at least seven times as many bytes as the piece. `None` comes exactly where no
/// sequence of blocks is the piece. The buffer may hold anything then, and behind what was
/// written. Takes no memory.
#[inline(never)]
pub fn decode_piece(piece: &[u8], out: &mut [u8]) -> Option<usize>
    requires { 7 * length piece.now ≤ length out.old }
    ensures decoded { decoded piece.now ≡ option_map (λ count. take count out.new) result }
    ensures within { IfSome result (λ count. count ≤ length out.new) }
{
    match decode(piece, out) {
        Ok(count) => Some(count),
        Err(Malformed) => None,
    }
}

/// The same of a piece without a zero, as it stands between two zeros of a stream, but what the piece stands for is written to the
/// end of the buffer, and where it begins is answered. The buffer may hold anything in front of that.
pub fn decode_zeroless_piece(piece: &[u8], out: &mut [u8]) -> Option<usize>
    requires room { 7 * length piece.now ≤ length out.old }
    requires none { has_zero piece.now ≡ false }
    ensures decoded { decoded piece.now ≡ option_map (λ begin. drop begin out.new) result }
    ensures within { IfSome result (λ begin. begin ≤ length out.new) }
{
    match decode_zeroless_to_end(piece, out) {
        Ok(begin) => Some(begin),
        Err(Malformed) => None,
    }
}

/// The same of a piece that stands in front of some bytes and has so many of them. The buffer has nine bytes more
/// than seven times as many as the piece.
#[inline(always)]
pub fn decode_piece_in_front(bytes: &[u8], size: usize, out: &mut [u8]) -> Option<usize>
    requires size { size ≤ length bytes.now }
    requires room { 7 * size + 9 ≤ length out.old }
    requires none { has_zero (take size bytes.now) ≡ false }
    ensures decoded { decoded (take size bytes.now) ≡ option_map (λ begin. drop begin out.new) result }
    ensures within { IfSome result (λ begin. begin ≤ length out.new) }
{
    match decode_front_to_end(bytes, size, out) {
        Ok(begin) => Some(begin),
        Err(Malformed) => None,
    }
}
