//! Calls that go up to the end of a text.

ghost use Rattle.std.specs.Prelude.{◌≡◌, ◌<◌, IfSome, true};
ghost use Rattle.std.specs.List.{list_all};
ghost use Rattle.std.specs.Option.{option_copied};
ghost use Rattle.std.specs.Str.{IsUtf8};
ghost use Rattle.defmt_grammar.specs.Cut.{before};
ghost use Rattle.defmt_shapes.specs.Runs.{in_class};
ghost use Rattle.defmt_shapes.specs.Shape.{is_name};
ghost use Rattle.defmt_shapes.specs.Spelling.{FindsLastCall, is_closing, closes_at_once};
ghost use Rattle.defmt_shapes.specs.declared.parts.Class.TheVariants.{Word};

use crate::parts::{Class, behind, split_run};

// What stands in front of this character, where the text ends with it.
fn before(text: &str, last: char) -> Option<&str>
    requires { last < 128 }
    ensures front { option_copied result ≡ before last text.now }
    ensures utf8 { IfSome result (λ front. IsUtf8 front.now) }
{
    text.strip_suffix(last)
}

// Whether letters, digits and `_` are a name.
fn are_name(word: &str) -> bool
    requires { list_all (in_class Word) word.now ≡ true }
    ensures { result ≡ is_name word.now }
{
    match word.as_bytes() {
        [] => false,
        [first, more @ ..] => first.is_ascii_alphabetic() && more.len() <= 31,
    }
}

fn is_closing(byte: u8) -> bool
    ensures { result ≡ is_closing byte }
{
    byte == b')'
}

fn are_closing(bytes: &[u8]) -> bool
    ensures { result ≡ list_all is_closing bytes.now }
{
    bytes.iter().all(|byte| is_closing(*byte))
}

// Whether nothing but closing brackets stands behind the first of them.
fn closes_at_once(bytes: &[u8]) -> bool
    ensures { result ≡ closes_at_once bytes.now }
{
    let mut rest = bytes;
    'each: while let [first, more @ ..] = rest {
        if is_closing(*first) {
            return are_closing(more);
        }
        rest = more;
    }
    true
}

/// The name of a call without a variant, and what stands between its brackets, where the text is a name, an opening bracket, this
/// and a closing one, and nothing but closing brackets stands behind the first of them. Where the inside spells values, the text
/// spells the call of these; of the inside itself nothing else is asked.
pub fn last_call(text: &str) -> Option<(&str, &str)>
    ensures parts { FindsLastCall text.now result }
    ensures utf8 { IfSome result (λ p. IsUtf8 p.0.now × IsUtf8 p.1.now) }
{
    let (name, rest) = split_run(text, Class::Word);
    if !are_name(name) {
        return None;
    }
    let Some(values) = behind(rest, '(') else {
        return None;
    };
    let Some(inside) = before(values, ')') else {
        return None;
    };
    if closes_at_once(inside.as_bytes()) {
        Some((name, inside))
    } else {
        None
    }
}
