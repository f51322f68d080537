//! Texts in quotes, without escapes.

ghost use Rattle.std.specs.Prelude.{IfSome};
ghost use Rattle.std.specs.Str.{IsUtf8};
ghost use Rattle.defmt_grammar.specs.declared.language.Language.{Language};
ghost use Rattle.defmt_shapes.specs.Shape.{HeadShape, quoted};

use crate::parts::{behind, ends_there};
use memchr::memchr2;

/// The text in quotes that the text begins with, where it has no escape, and what follows it.
pub fn quick_quoted(text: &str) -> Option<(&str, &str)>
    ensures value { (language : Language)
        → IfSome result (λ p. HeadShape language text.now (quoted p.0.now) p.1.now) }
    ensures utf8 { IfSome result (λ p. IsUtf8 p.0.now × IsUtf8 p.1.now) }
{
    let quoted = behind(text, '"')?;
    let end = memchr2(b'"', b'\\', quoted.as_bytes())?;
    let (inside, more) = quoted.split_at(end);
    let rest = behind(more, '"')?;
    if ends_there(rest) {
        Some((inside, rest))
    } else {
        None
    }
}
