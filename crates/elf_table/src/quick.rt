//! The texts of an object that is written without spaces and escapes, as `symbol_name` writes names and defmt's macros most of them.

ghost use Rattle.std.specs.Prelude.{◌≡◌, ◌≤◌, ◌<◌, ◌∷◌, ◌++◌, ℕ, IfSome, length, slice_index};
ghost use Rattle.std.specs.Str.{IsUtf8};
ghost use Rattle.json.specs.Lex.{tokens};
ghost use Rattle.json.specs.Print.{quoted};
ghost use Rattle.elf_table.specs.Members.{IsObjectOf};

use crate::members::{Texts, later};
use memchr::memchr2;

// What stands behind the character that the text begins with, if it is this one.
fn behind(text: &str, first: char) -> Option<&str>
    requires { first < 128 }
    ensures rest { IfSome result (λ rest. text.now ≡ first ∷ rest.now) }
    ensures utf8 { IfSome result (λ rest. IsUtf8 rest.now) }
{
    // By its first byte, which costs less than its first character.
    let [front, ..] = text.as_bytes() else {
        return None;
    };
    if char::from(*front) != first {
        return None;
    }
    let (_, rest) = text.split_at(1);
    Some(rest)
}

// The least byte of a text, 255 where it has none.
fn least_byte(text: &str) -> u8
    ensures { (k : ℕ) → k < length text.now → result ≤ slice_index text.now k }
{
    let mut least = 255;
    for byte in text.as_bytes() {
        least = (*byte).min(least);
    }
    least
}

// A string without escapes that the text begins with, and what follows it.
fn plain_string(text: &str) -> Option<(&str, &str)>
    ensures spelled { IfSome result (λ p. text.now ≡ quoted p.0.now ++ p.1.now) }
    ensures utf8 { IfSome result (λ p. IsUtf8 p.0.now × IsUtf8 p.1.now) }
{
    let inside = behind(text, '"')?;
    let end = memchr2(b'"', b'\\', inside.as_bytes())?;
    let (string, more) = inside.split_at(end);
    let rest = behind(more, '"')?;
    if least_byte(string) < b' ' {
        return None;
    }
    Some((string, rest))
}

// A key, its string, and what follows them.
fn plain_member(text: &str) -> Option<(&str, &str, &str)>
    ensures spelled { IfSome result
        (λ p. text.now ≡ quoted p.0.now ++ 58 ∷ (quoted p.1.now ++ p.2.now)) }
    ensures utf8 { IfSome result (λ p. IsUtf8 p.2.now) }
{
    let (key, more) = plain_string(text)?;
    let (value, rest) = plain_string(behind(more, ':')?)?;
    Some((key, value, rest))
}

/// The texts of the one object that a name is, `None` where it has none, a member is no string, or a space or an escape
/// stands in it.
pub fn quick_texts(name: &str) -> Option<Texts<'_>>
    ensures { IfSome result (IsObjectOf (tokens name.now)) }
{
    let mut package = None;
    let mut tag = None;
    let mut text = None;
    let mut disambiguator = None;
    let mut rest = behind(name, '{')?;
    'members: loop {
        let (key, value, after) = plain_member(rest)?;
        package = later("package", key, value, package);
        tag = later("tag", key, value, tag);
        text = later("data", key, value, text);
        disambiguator = later("disambiguator", key, value, disambiguator);
        if after == "}" {
            return Some(Texts {
                package,
                tag,
                text,
                disambiguator,
            });
        }
        rest = behind(after, ',')?;
    }
}
