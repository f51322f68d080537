//! Characters and texts in quotes.

ghost use Rattle.std.specs.Prelude.{◌≡◌, ◌<◌, IfSome};
ghost use Rattle.std.specs.Str.{IsUtf8};
ghost use Rattle.std.specs.Str.Parse.{digits_value, IsNumeral};
ghost use Rattle.defmt_grammar.specs.Cut.{parts_of};
ghost use Rattle.defmt_shapes.specs.Shape.{escaped};
ghost use Rattle.defmt_shapes.specs.Escapes.{with_rest, scalar_of, number_escape, escape_of, IsFirstChar, IsCharacter, IsQuotedEnd};

use crate::parts::{Class, behind, first_ascii, split_run};

// What a letter behind `\` stands for.
fn escaped(letter: u8) -> Option<char>
    ensures { result ≡ escaped letter }
{
    match letter {
        b'n' => Some('\n'),
        b'r' => Some('\r'),
        b't' => Some('\t'),
        b'\\' => Some('\\'),
        b'"' => Some('"'),
        b'\'' => Some('\''),
        _ => None,
    }
}

// The character that at most six hexadecimal digits name.
fn scalar_of(digits: &str) -> Option<char>
    requires { IsNumeral 16 digits.now }
    ensures { result ≡ scalar_of (digits_value 16 digits.now) }
{
    match u32::from_str_radix(digits, 16) {
        Ok(code) => char::from_u32(code),
        Err(_) => None,
    }
}

// The character behind `\u`, and what follows it.
#[tactic(auto, unfolding(crate::specs::Escapes::number_escape))]
fn number_escape(text: &str) -> Option<(char, &str)>
    ensures parts { with_rest result ≡ number_escape text.now }
    ensures utf8 { IfSome result (λ p. IsUtf8 p.1.now) }
{
    let more = behind(text, '{')?;
    let (digits, more) = split_run(more, Class::Hexadecimal);
    if digits.is_empty() || digits.len() > 6 {
        return None;
    }
    let rest = behind(more, '}')?;
    let character = scalar_of(digits)?;
    Some((character, rest))
}

// The character that stands behind `\`, and what follows it.
#[tactic(auto, unfolding(crate::specs::Escapes::escape_of))]
fn escape_of(text: &str) -> Option<(char, &str)>
    ensures parts { with_rest result ≡ escape_of text.now }
    ensures utf8 { IfSome result (λ p. IsUtf8 p.1.now) }
{
    if let Some(more) = behind(text, 'u') {
        return number_escape(more);
    }
    let (letter, rest) = first_ascii(text)?;
    let character = escaped(letter)?;
    Some((character, rest))
}

// The first character, and what follows it.
fn first_char(text: &str) -> Option<(char, &str)>
    ensures parts { IsFirstChar text.now (with_rest result) }
    ensures utf8 { IfSome result (λ p. IsUtf8 p.1.now) }
{
    let mut chars = text.chars();
    let Some(first) = chars.next() else {
        return None;
    };
    Some((first, chars.as_str()))
}

/// The character or escape between these quotes that the text begins with, and what follows it.
pub fn character_of(text: &str, quote: char) -> Option<(char, &str)>
    requires { quote < 128 }
    ensures parts { IsCharacter quote text.now (with_rest result) }
    ensures utf8 { IfSome result (λ p. IsUtf8 p.1.now) }
{
    if let Some(more) = behind(text, '\\') {
        return escape_of(more);
    }
    if behind(text, quote).is_some() {
        return None;
    }
    first_char(text)
}

/// What stands before a closing `"`, and behind it.
pub fn quoted_end(text: &str) -> Option<(&str, &str)>
    ensures parts { IsQuotedEnd text.now (parts_of result) }
    ensures utf8 { IfSome result (λ p. IsUtf8 p.1.now) }
{
    let mut rest = text;
    'characters: while !rest.is_empty() {
        if let Some(after) = behind(rest, '"') {
            let (inside, _) = text.split_at(text.len() - rest.len());
            return Some((inside, after));
        }
        let Some((_, after)) = character_of(rest, '"') else {
            return None;
        };
        rest = after;
    }
    None
}
