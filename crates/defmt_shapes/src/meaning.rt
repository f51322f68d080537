//! What stands inside a spelling, as text and bytes.

ghost use Rattle.std.specs.Prelude.{◌≡◌, ◌<◌, List, ℕ, ◌∷◌, length, IfOk, MatchOption};
ghost use Rattle.defmt_shapes.specs.Shape.{SpellsQuoted, SpellsBytes};
ghost use Rattle.defmt_shapes.specs.Meaning.{MeansText, MeansBytes, FirstByte, NoByte};

use crate::digits::digit_of;
use crate::escape::character_of;
use defmt_grammar::Text;
use dl_io::{Bytes, Memory};
use std::alloc::Global;

/// The text that stands between double quotes, with each escape as the character that it stands for.
/// Where `inside` isn't so spelled, the text of the characters and escapes in front, up to the first place where none
/// stands.
///
/// # Errors
/// `Memory` where memory runs out.
pub fn unescape(alloc: Global, inside: &str) -> Result<Text, Memory>
    ensures means { IfOk result (λ text. MeansText inside.now text) }
    ensures spelled { (s : List ℕ) → SpellsQuoted inside.now s → IfOk result (λ text. text ≡ s) }
{
    let mut text = Text::new(alloc);
    let mut rest = inside;
    'characters: while let Some((character, after)) = character_of(rest, '"') {
        match text.push(character) {
            Ok(()) => {}
            Err(_) => return Err(Memory),
        }
        rest = after;
    }
    Ok(text)
}

// The first two bytes, and what follows them.
fn split_pair(digits: &[u8]) -> Option<(u8, u8, &[u8])>
    ensures { MatchOption result (length digits.now < 2) (λ p. digits.now ≡ p.0 ∷ p.1 ∷ p.2.now) }
{
    let Some((high, rest)) = digits.split_first() else {
        return None;
    };
    let Some((low, rest)) = rest.split_first() else {
        return None;
    };
    Some((*high, *low, rest))
}

// The byte that two hexadecimal digits in front stand for, and what follows them.
fn first_byte(digits: &[u8]) -> Option<(u8, &[u8])>
    ensures { MatchOption result (NoByte digits.now) (λ p. FirstByte digits.now p.0 p.1.now) }
{
    let Some((first, second, rest)) = split_pair(digits) else {
        return None;
    };
    let Some(high) = digit_of(first) else {
        return None;
    };
    let Some(low) = digit_of(second) else {
        return None;
    };
    Some((16 * high + low, rest))
}

/// The bytes that pairs of hexadecimal digits stand for. Where `digits` isn't so spelled, the bytes of the pairs in
/// front, up to the first place where none stands.
///
/// # Errors
/// `Memory` where memory runs out.
pub fn bytes_of(alloc: Global, digits: &str) -> Result<Bytes, Memory>
    ensures means { IfOk result (λ bytes. MeansBytes digits.now bytes.items) }
    ensures spelled { (bs : List ℕ) → SpellsBytes digits.now bs
        → IfOk result (λ bytes. bytes.items ≡ bs) }
{
    let mut bytes = Bytes::new(alloc);
    let mut rest = digits.as_bytes();
    'pairs: while let Some((byte, after)) = first_byte(rest) {
        bytes.push(byte)?;
        rest = after;
    }
    Ok(bytes)
}
