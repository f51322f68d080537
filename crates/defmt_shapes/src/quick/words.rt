//! Truth values.

ghost use Rattle.std.specs.Prelude.{◌≡◌, ◌≢◌, ◌++◌, ℕ, Bool, List, IfSome, MatchOption};
ghost use Rattle.std.specs.Str.{IsUtf8};
ghost use Rattle.defmt_grammar.specs.declared.language.Language.{Language};
ghost use Rattle.defmt_shapes.specs.Shape.{HeadShape, flag, flag_word};

use crate::parts::ends_there;

/// The truth value that the text begins with, and what follows it.
pub fn quick_flag(text: &str) -> Option<(bool, &str)>
    ensures value { (language : Language) → MatchOption result
        ((b : Bool) (rest : List ℕ) → HeadShape language text.now (flag b) rest → ⊥)
        (λ p. HeadShape language text.now (flag p.0) p.1.now) }
    ensures utf8 { IfSome result (λ p. IsUtf8 p.1.now) }
{
    let Some((value, rest)) = word(text) else {
        return None;
    };
    if ends_there(rest) {
        Some((value, rest))
    } else {
        None
    }
}

// The word in front, and what follows it.
fn word(text: &str) -> Option<(bool, &str)>
    ensures text { MatchOption result
        ((b : Bool) (rest : List ℕ) → text.now ≢ flag_word b ++ rest)
        (λ p. text.now ≡ flag_word p.0 ++ p.1.now) }
    ensures utf8 { IfSome result (λ p. IsUtf8 p.1.now) }
{
    match text.as_bytes() {
        [b't', b'r', b'u', b'e', ..] => {
            let (_, rest) = text.split_at(4);
            Some((true, rest))
        }
        [b'f', b'a', b'l', b's', b'e', ..] => {
            let (_, rest) = text.split_at(5);
            Some((false, rest))
        }
        _ => None,
    }
}
