//! Bytes, as pairs of hexadecimal digits.

ghost use Rattle.std.specs.Prelude.{◌≡◌, ◌<◌, ◌+◌, ◌*◌, ◌++◌, IfSome, IfOk};
ghost use Rattle.std.specs.Char.{digit_value};
ghost use Rattle.std.specs.Str.{IsUtf8};
ghost use Rattle.defmt_grammar.specs.declared.language.Language.{Language};
ghost use Rattle.defmt_shapes.specs.Shape.{HeadShape, bytes, EndsThere, SpellsBytes};

use crate::digits::digit_of;
use crate::parts::behind;
use dl_io::{Bytes, Memory};
use memchr::memchr;
use std::alloc::Global;

/// The bytes that the text begins with, and what follows them.
///
/// # Errors
/// `Memory` where memory runs out.
pub fn quick_bytes(alloc: Global, text: &str) -> Result<Option<(Bytes, &str)>, Memory>
    ensures value { (language : Language) → IfOk result
        (λ o. IfSome o (λ p. HeadShape language text.now (bytes p.0.items) p.1.now)) }
    ensures utf8 { IfOk result (λ o. IfSome o (λ p. IsUtf8 p.1.now)) }
{
    let Some(digits) = behind(text, '#') else {
        return Ok(None);
    };
    let (digits, rest) = until_space(digits);
    match bytes_of(alloc, digits.as_bytes())? {
        Some(bytes) => Ok(Some((bytes, rest))),
        None => Ok(None),
    }
}

// What stands before the first space, and what follows.
fn until_space(text: &str) -> (&str, &str)
    ensures whole { text.now ≡ result.0.now ++ result.1.now }
    ensures ends { EndsThere result.1.now }
    ensures utf8 { IsUtf8 result.1.now }
{
    match memchr(b' ', text.as_bytes()) {
        Some(at) => text.split_at(at),
        None => text.split_at(text.len()),
    }
}

// The bytes of all digits, where they are pairs of hexadecimal ones. They are read from the last to the first.
fn bytes_of(alloc: Global, digits: &[u8]) -> Result<Option<Bytes>, Memory>
    ensures { IfOk result (λ o. IfSome o (λ bytes. SpellsBytes digits.now bytes.items)) }
{
    if digits.len() % 2 != 0 {
        return Ok(None);
    }
    let count = digits.len() / 2;
    let mut bytes = vec![in alloc; 0u8; count]?;
    let mut left = count;
    'pairs: while left > 0 {
        left -= 1;
        let Some(byte) = byte_of(digits[2 * left], digits[2 * left + 1]) else {
            return Ok(None);
        };
        bytes[left] = byte;
    }
    Ok(Some(Bytes::from_vec(bytes)))
}

// The byte of two digits.
fn byte_of(high: u8, low: u8) -> Option<u8>
    ensures high { IfSome result (λ byte. digit_value high < 16) }
    ensures low { IfSome result (λ byte. digit_value low < 16) }
    ensures byte { IfSome result (λ byte. byte ≡ 16 * digit_value high + digit_value low) }
{
    let high = digit_of(high)?;
    let low = digit_of(low)?;
    Some(16 * high + low)
}
