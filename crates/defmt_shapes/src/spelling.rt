//! The value or element that a text begins with.

ghost use Rattle.std.specs.Prelude.{List, ℕ, IfOk, IfSome};
ghost use Rattle.std.specs.Str.{IsUtf8};
ghost use Rattle.defmt_grammar.specs.declared.language.Language.{Language as AnyLanguage};
ghost use Rattle.defmt_shapes.specs.Shape.{Shape as AnyShape};
ghost use Rattle.defmt_shapes.specs.Leads.{view_whole, Leads};
ghost use Rattle.defmt_shapes.specs.Spelling.{Tells, FindsValue, FindsItem};

use crate::full::head_of;
use crate::head::{Head, Whole, item_of};
use crate::number::{Number, number_of, variant_of};
use crate::parts::ends_there;
use crate::scan::{Bracket, enclosed};
use defmt_grammar::Language;
use dl_io::Memory;
use std::alloc::Global;

/// What the text of one value says, with the parts of the text that stand inside it.
#[derive(Clone, Copy)]
pub enum Spelling<'a> {
    /// Decimal digits: their number, and themselves.
    Decimal(Number, &'a str),
    /// `0x` and hexadecimal digits.
    Hexadecimal(Number),
    /// `-` and decimal digits: the number without its sign, and the digits.
    Negative(Number, &'a str),
    /// `true` or `false`.
    Flag(bool),
    /// A character in single quotes.
    Character(char),
    /// What stands between double quotes, with its escapes: `unescape` gives what it means.
    Quoted(&'a str),
    /// The name behind `@`.
    Interned(&'a str),
    /// The hexadecimal digits behind `#`, two for each byte: `bytes_of` gives the bytes.
    Bytes(&'a str),
    /// `NAME(ARGS)` or `NAME:V(ARGS)`.
    Call {
        /// The name.
        name: &'a str,
        /// The variant.
        variant: Option<Number>,
        /// The values between the brackets.
        inside: &'a str,
    },
    /// `[]`.
    Empty,
    /// `NAME[ITEMS]`.
    Sequence {
        /// The name.
        name: &'a str,
        /// The elements between the brackets, at least one.
        inside: &'a str,
    },
    /// A decimal number with a fraction or an exponent, `NaN`, `inf` or `-inf`.
    Float(&'a str),
    /// The Format values between `<` and `>`.
    Nodes(&'a str),
}

/// An element of a list: `(ARGS)` or `V(ARGS)`.
#[derive(Clone, Copy)]
pub struct Item<'a> {
    /// The variant.
    pub variant: Option<Number>,
    /// The values between the brackets.
    pub inside: &'a str,
}

// The spelling of a value without values inside.
fn spelling_of(whole: Whole<'_>) -> Spelling<'_>
    ensures { (language : AnyLanguage) (after : List ℕ) (rest : List ℕ) (s : AnyShape)
        → Leads language (view_whole whole.entry) after rest s → Tells language result s }
{
    match whole {
        Whole::Decimal(digits) => Spelling::Decimal(number_of(digits, 10), digits),
        Whole::Hexadecimal(digits) => Spelling::Hexadecimal(number_of(digits, 16)),
        Whole::Negative(digits) => Spelling::Negative(number_of(digits, 10), digits),
        Whole::Flag(flag) => Spelling::Flag(flag),
        Whole::Character(character) => Spelling::Character(character),
        Whole::Quoted(inside) => Spelling::Quoted(inside),
        Whole::Interned(name) => Spelling::Interned(name),
        Whole::Bytes(digits) => Spelling::Bytes(digits),
        Whole::Empty => Spelling::Empty,
        Whole::Float(text) => Spelling::Float(text),
    }
}

/// The value that a text begins with, and what follows it: the rest is empty or begins with a space.
/// A value's text runs to the next space outside all brackets and quotes, or to the end, and all of it
/// is judged, with everything inside its brackets, however deep. `None` where it spells no value, as
/// where the text is empty or begins with a space.
///
/// # Errors
/// `Memory` where memory runs out.
pub fn first_value(
    alloc: Global,
    language: Language,
    text: &str,
) -> Result<Option<(Spelling<'_>, &str)>, Memory>
    ensures value { FindsValue language text.now result }
    ensures utf8 { IfOk result (λ o. IfSome o (λ p. IsUtf8 p.1.now)) }
{
    let Some((head, after)) = head_of(language, text) else {
        return Ok(None);
    };
    match head {
        Head::Whole(whole) => {
            if !ends_there(after) {
                return Ok(None);
            }
            Ok(Some((spelling_of(whole), after)))
        }
        Head::Call(name, variant) => {
            let Some((inside, rest)) = enclosed(alloc, language, after, Bracket::Round)? else {
                return Ok(None);
            };
            if !ends_there(rest) {
                return Ok(None);
            }
            let variant = variant_of(variant);
            Ok(Some((
                Spelling::Call {
                    name,
                    variant,
                    inside,
                },
                rest,
            )))
        }
        Head::Sequence(name) => {
            let Some((inside, rest)) = enclosed(alloc, language, after, Bracket::Square)? else {
                return Ok(None);
            };
            if !ends_there(rest) {
                return Ok(None);
            }
            Ok(Some((Spelling::Sequence { name, inside }, rest)))
        }
        Head::Nodes => {
            let Some((inside, rest)) = enclosed(alloc, language, after, Bracket::Angle)? else {
                return Ok(None);
            };
            if !ends_there(rest) {
                return Ok(None);
            }
            Ok(Some((Spelling::Nodes(inside), rest)))
        }
    }
}

/// The element that a text begins with, and what follows it: the rest is empty or begins with a space.
/// `None` where there is none, as where the text is empty or begins with a space.
///
/// # Errors
/// `Memory` where memory runs out.
pub fn first_item(
    alloc: Global,
    language: Language,
    text: &str,
) -> Result<Option<(Item<'_>, &str)>, Memory>
    ensures item { FindsItem language text.now result }
    ensures utf8 { IfOk result (λ o. IfSome o (λ p. IsUtf8 p.1.now)) }
{
    let Some((variant, after)) = item_of(text) else {
        return Ok(None);
    };
    let Some((inside, rest)) = enclosed(alloc, language, after, Bracket::Round)? else {
        return Ok(None);
    };
    if !ends_there(rest) {
        return Ok(None);
    }
    let variant = variant_of(variant);
    Ok(Some((Item { variant, inside }, rest)))
}
